//! What a seat did at one moment.
use crate::view::{Sight, Told};
use std::marker::Model;
use step_table::ListWord;

/// One stride of a seat: how it stood, its deed, what it read, and what it had seen and told. No value of it
/// is made.
pub struct Stride {
    before: Sight,
    /// The word that it only looked at. None: it ran its row.
    looked: Option<ListWord>,
    read: u64,
    told: [Told; 0],
}

impl Model for Stride {
    ghost use Rattle.step_law_lists.specs.ListPath.{ListStride};
    ghost use Rattle.notify_list.specs.Sights.{stride_of};

    ghost Value = { ListStride };

    ghost view = { λ stride. stride_of stride.before stride.looked stride.read stride.told };
}
