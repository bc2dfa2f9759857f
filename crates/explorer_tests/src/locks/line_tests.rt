//! What lines say.

use program_code::Relation;
use program_text::{Number, ProgramCause, ProgramFault, SpelledLine, SpelledOperand, read_lines};
use std::alloc::Global;

/// A lock, and how many lines its text has.
static TEST_AND_SET: &str = "# a test, and then a set
word taken 0
register was
section held

program user
again:
  load taken was
  if was != 0 goto again
  store taken 1
  in held
  out held
  store taken 0

seats 2 user
most held 1
";

/// Each kind of line once.
static EACH: &str = "const max 1073741824
word w[4] -1
counter c max
list l
register r s
section held
program p
load w[me] r
store w[r] 1
swap w[0] me
swap w[0] me r
add w[3] -1 s
exchange w[max] 0 1
exchange w[me] 0 1 r
await w[0] <= 5
await w[0] > -5 r
acquire c
acquire c lifo
release c
release c handoff
release c many 2
ticket l
wait l
one l
all l
park w[0] 1
unpark w[0] 256
out held
let r me
let r r >> 3
if r >= s goto end
goto end
end:
ask held
in held
assert r == 0
fail
do p
return
seats 3 p
most held 1
apart held held
passed held 255
finally w[0] == max
";

fn read_twice<'t>(alloc: Global, text: &'t [u8]) -> Result<Vec<SpelledLine<'t>>, ProgramFault> {
    match read_lines(alloc, text) {
        Err(
            ProgramFault {
                cause: ProgramCause::NoMemory,
                ..
            },
        ) => read_lines(alloc, text),
        read => read,
    }
}

#[test]
fn texts_have_lines(rt: HostRuntime) {
    let lock = read_twice(rt.alloc(), TEST_AND_SET.as_bytes()).expect(&rt, "a lock");
    assert_eq!(rt; lock.len(), 16);
    let each = read_twice(rt.alloc(), EACH.as_bytes()).expect(&rt, "each kind of line");
    assert_eq!(rt; each.len(), 44);
}

fn is_me(index: &Option<SpelledOperand<'_>>) -> bool {
    match index {
        Some(SpelledOperand::Me) => true,
        _ => false,
    }
}

/// The line waits until `w[me]` is at most something, which the register `was` keeps.
fn awaits(line: &SpelledLine<'_>) -> bool {
    match line {
        SpelledLine::Await(
            place,
            Relation::AtMost,
            SpelledOperand::Number(Number::Minus(_)),
            Some(register),
        ) => place.name.as_str() == "w" && is_me(&place.index) && register.as_str() == "was",
        _ => false,
    }
}

#[test]
fn a_line_is_read(rt: HostRuntime) {
    let text = b"  await  w[me] <=  -3 was # until it is\n";
    let lines = read_twice(rt.alloc(), text).expect(&rt, "a line");
    let line = lines.first().expect(&rt, "a line");
    assert!(rt; awaits(line));
}
