//! What names stand for.

ghost use Rattle.std.specs.Prelude.{◌≡◌};
ghost use Rattle.std.specs.Str.{bytes_eq};
ghost use Rattle.program.specs.Names as naming;
ghost use Rattle.program.specs.Parts as parts;

use program_text::{Name, ProgramCause};
use step_table::Items;

/// A constant.
#[derive(Drop)]
pub struct Constant<'t> {
    /// Its name.
    pub name: Name<'t>,
    /// The number that it stands for.
    pub value: i64,
}

/// Which words or counters one name stands for.
#[derive(Clone, Copy, Drop)]
pub struct CellSpan {
    /// The number of the one, or of an array's first member.
    pub first: usize,
    /// How many members an array has.
    pub length: Option<usize>,
}

/// A word or a counter, or an array of them.
#[derive(Drop)]
pub struct Cells<'t> {
    /// Its name.
    pub name: Name<'t>,
    /// Which of its kind it stands for.
    pub span: CellSpan,
}

/// All names but labels. Those of one kind are numbered in the order in which they are declared.
#[derive(Drop)]
pub struct DeclaredNames<'t> {
    /// The constants.
    pub constants: Items<Constant<'t>>,
    /// The words.
    pub words: Items<Cells<'t>>,
    /// The counters.
    pub counters: Items<Cells<'t>>,
    /// The notify lists.
    pub lists: Items<Name<'t>>,
    /// The registers.
    pub registers: Items<Name<'t>>,
    /// The sections.
    pub sections: Items<Name<'t>>,
    /// The programs.
    pub programs: Items<Name<'t>>,
}

/// Whether both names are spelled alike.
pub(crate) fn is_same(name: &Name<'_>, other: &Name<'_>) -> bool
    ensures { result ≡ bytes_eq name.now other.now }
{
    name.as_str() == other.as_str()
}

/// Whether the name is one of these.
pub(crate) fn holds_name(names: &[Name<'_>], name: &Name<'_>) -> bool
    ensures { result ≡ naming.holds_name names.now name.now }
{
    names.iter().any(|other| is_same(other, name))
}

/// Whether the name is that of one of these constants.
fn holds_constant(constants: &[Constant<'_>], name: &Name<'_>) -> bool
    ensures { result ≡ naming.holds_constant constants.now name.now }
{
    constants.iter().any(|one| is_same(&one.name, name))
}

/// Whether the name is that of one of these words or counters.
fn holds_cells(cells: &[Cells<'_>], name: &Name<'_>) -> bool
    ensures { result ≡ naming.holds_cells cells.now name.now }
{
    cells.iter().any(|one| is_same(&one.name, name))
}

/// The place of the name among these.
fn number_of_name(names: &[Name<'_>], name: &Name<'_>) -> Option<usize>
    ensures { result ≡ naming.number_of_name names.now name.now }
{
    names.iter().position(|other| is_same(other, name))
}

/// What the name stands for among these constants.
fn value_of(constants: &[Constant<'_>], name: &Name<'_>) -> Option<i64>
    ensures { result ≡ naming.value_of constants.now name.now }
{
    for constant in constants {
        if is_same(&constant.name, name) {
            return Some(constant.value);
        }
    }
    None
}

/// What the name stands for among these words or counters.
fn span_of(cells: &[Cells<'_>], name: &Name<'_>) -> Option<CellSpan>
    ensures { result ≡ naming.span_of cells.now name.now }
{
    for one in cells {
        if is_same(&one.name, name) {
            return Some(one.span);
        }
    }
    None
}

impl<'t> DeclaredNames<'t> {
    /// The constant of this name.
    pub(crate) fn constant(&self, name: &Name<'t>) -> Option<i64>
        ensures { result ≡ naming.value_of self.now.constants name.now }
    {
        value_of(self.constants.as_slice(), name)
    }

    /// The word or the array of words of this name.
    pub fn word(&self, name: &Name<'t>) -> Option<CellSpan>
        ensures { result ≡ naming.span_of self.now.words name.now }
    {
        span_of(self.words.as_slice(), name)
    }

    /// The counter or the array of counters of this name.
    pub fn counter(&self, name: &Name<'t>) -> Option<CellSpan>
        ensures { result ≡ naming.span_of self.now.counters name.now }
    {
        span_of(self.counters.as_slice(), name)
    }

    /// The number of the list of this name.
    pub(crate) fn list(&self, name: &Name<'t>) -> Result<usize, ProgramCause>
        ensures { result ≡ parts.list_of self.now name.now }
    {
        number_of_name(self.lists.as_slice(), name).ok_or(ProgramCause::Undeclared)
    }

    /// The number of the register of this name.
    pub(crate) fn register(&self, name: &Name<'t>) -> Result<usize, ProgramCause>
        ensures { result ≡ parts.register_of self.now name.now }
    {
        number_of_name(self.registers.as_slice(), name).ok_or(ProgramCause::Undeclared)
    }

    /// The number of the section of this name.
    pub fn section(&self, name: &Name<'t>) -> Result<usize, ProgramCause>
        ensures { result ≡ parts.section_of self.now name.now }
    {
        number_of_name(self.sections.as_slice(), name).ok_or(ProgramCause::Undeclared)
    }

    /// The number of the program of this name.
    pub fn program(&self, name: &Name<'t>) -> Result<usize, ProgramCause>
        ensures { result ≡ parts.program_of self.now name.now }
    {
        number_of_name(self.programs.as_slice(), name).ok_or(ProgramCause::Undeclared)
    }

    /// Whether the name is that of a constant, a word or a counter.
    fn is_valued(&self, name: &Name<'t>) -> bool
        ensures { result ≡ naming.is_valued self.now name.now }
    {
        holds_constant(self.constants.as_slice(), name)
            || holds_cells(self.words.as_slice(), name)
            || holds_cells(self.counters.as_slice(), name)
    }

    /// Whether it is that of a list, a register, a section or a program.
    fn is_numbered(&self, name: &Name<'t>) -> bool
        ensures { result ≡ naming.is_numbered self.now name.now }
    {
        holds_name(self.lists.as_slice(), name)
            || holds_name(self.registers.as_slice(), name)
            || holds_name(self.sections.as_slice(), name)
            || holds_name(self.programs.as_slice(), name)
    }

    /// Whether the name is declared, whatever its kind.
    pub fn is_declared(&self, name: &Name<'t>) -> bool
        ensures { result ≡ naming.is_declared self.now name.now }
    {
        self.is_valued(name) || self.is_numbered(name)
    }

    /// Whether one of these is declared already, or stands twice among them.
    pub fn is_any_again(&self, declared: &[Name<'t>]) -> bool
        ensures { result ≡ naming.is_any_again self.now declared.now }
    {
        for (i, name) in declared.iter().enumerate() {
            if self.is_declared(name) || holds_name(&declared[i + 1..], name) {
                return true;
            }
        }
        false
    }
}
