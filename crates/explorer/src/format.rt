/// The form of a scenario's text, as the command `format` tells it.
pub(crate) static FORMAT: &str =
    "A scenario is lines, each ended by a line feed, with one space between words, in this order:

  roots N               at most once: the number of roots, 1 to 251; without it 251
  counter S             0 to 16 times: the next counter, which starts at S, 0 to 4294967295
  list F                0 to 16 times: the next notify list, whose first ticket is F
  group                 0 to 16 times: the next wait group
  seat K: CALLS         1 to 16 times: the next seat; K is 0, then 1, and so on, to 15
  settled               the property, once: where no seat can run, none sleeps;
  value C N                 or: where each seat has ended, counter C is at N;
  no-misuse                 or: no seat fails;
  no-lost                   or: where seats can do no more than give up, none sleeps whose wake-up was due

CALLS are 1 to 32 calls, with a semicolon and a space between them:

  acquire C             take one unit of counter C, or sleep until there is one
  acquire C lifo        the same, and a wait stands first in the list
  acquire C [lifo] leave    the same, and while the seat sleeps it may give up; a unit that comes late is kept
  acquire C [lifo] quit     or is given back
  release C             add one unit to C and wake the first wait
  release C handoff     the same, and the unit is tried for that wait
  release C many N      add N units at once, 1 to 256, and wake as many waits at most
  add L                 take a ticket of list L; the seat holds none of L
  wait L                wait until the ticket of L is granted; the seat holds one
  wait L leave          the same, and while it sleeps the seat may give up
  wait L quit           and a grant that comes late is passed on by a notification of one
  one L                 grant the least ticket that isn't granted
  all L                 grant all tickets that were handed out
  gadd G D              add D to the number of group G, from -2147483648 to 2147483647
  gwait G               wait until the number of G is 0
  gwait G leave         the same, and while it sleeps the seat may give up

Behind leave and quit may stand N, 1 to 31: a seat that gave up without a unit or a grant leaves out its next N calls.
Counters, lists and groups are named by their numbers, 0 to 15, each kind for itself. A number has no leading zero.
The form of a lock program's text: parklot format lock
";

/// The form of a lock program's text, as `format lock` tells it.
pub(crate) static LOCK_FORMAT: &str =
    "A lock program is lines of words, each ended by a line feed, in this order, the first six kinds in any:

  const N V             at most 32: N stands for the number V
  word N V              at most 32: a word, which starts at V; word N[K] V: an array of K, 1 to 16
  counter N V           at most 16: the same of counters, which start at 0 to 4294967295
  list N, section N     at most 4 notify lists, and 8 sections
  register N ..         at most 8: each seat has its own, 0 at the start
  program N             1 to 16: its lines follow, at most 128, or 255 without labels, but with those of do
  seats K N             1 to 16 in all: the next K seats run program N
  most S N              the properties, at most 16: at most N seats are in section S;
  apart S T                 or: no seat is in S while another is in T;
  passed S N                or: while a seat asks for S, others step into S at most N times, 0 to 255;
  finally W REL V           or: where all seats have ended, word or counter W REL V

The lines of a program, and labels, A:. What stands in [ ] may be left out; those below out are no step:

  load W r, store W e   r becomes W; W becomes e
  swap W e [r]          W becomes e, and r the old W; add W e [r]: W becomes W + e, and r the old W
  exchange W e f [r]    if W is e, it becomes f; r becomes the old W
  await W REL e [r]     wait until W REL e; then r becomes W
  acquire C [lifo]      as in a scenario; so release C [handoff], release C many e, one L, all L
  ticket L, wait L      take a ticket of list L, and wait with it
  park W e, unpark W e  sleep if W is e; wake the first e seats that sleep on W
  out S                 leave section S
  ask S, in S           ask for section S; enter it, which ends the asking
  do N                  insert the lines of program N, which stands further up
  let r e [OP f]        r becomes e, or e OP f; OP is + - & | ^ << >>
  if e REL f goto A     go to A if e REL f; goto A: in any case; return: go to the program's end
  assert e REL f        the seat fails unless e REL f; fail: in any case

A name is a letter and up to 23 letters, digits and _, but not me. e, f: a number, a constant, a register, or me, the
seat's number. V: a number or a constant, of const a number. W[e]: in an array. REL: == != < <= > >=. # begins a comment.
The form of a scenario's text: parklot format
";
