// What a step does, decided from the record, the innermost frame and the store; never from the whole place.
// Every public function is total. File and store are arrays of fixed size: each is one pointer, and no length goes with it.
// A way is a label and a direction in one number (the crate `ways`). By it a run looks up all that it needs.
#![tactic(auto)]

ghost use Rattle.std.specs.Prelude.{◌≡◌, ◌+◌, ◌<◌, ◌≤◌, get_or, Ok};
ghost use Rattle.evaluate.specs.Answers.{worth_at, truth_of};
ghost use Rattle.expr.specs.Bytes.{up_to};
ghost use Rattle.decide.specs.Decide.{more_of, fewer_of, slot_of, put_in};
ghost use Rattle.decide.specs.Ways.{depth_of, calls_in, count_in, bare, by_kind, by_label, sight, yes_in, no_in, second_in, expr_in, number, Does, on_to, chosen_in, closed_in, again_in, opened_in, repeated_in, entered_in, back_in, returned_in, looped_in, tested_in, Sets, cell_in, entry_in, Rules, rule_in};

use crate::set::{set_cell, set_entry};
use evaluate::truth;
use place::top_of;
use refusals::Reason;
use ways::label_of;

mod set;

// The sections of the map, an entry of each for every way: what its record does; where one comes to where its test holds or there is
// none, and where it does not hold; a call's edge and the way from there, or a SET's operator and cell or array; where its expression
// stands; and the record that its frame names.
const ACTS: usize = 0;

const ONWARD: usize = 2048;

const ELSEWHERE: usize = 4096;

const FIRST: usize = 6144;

const SECOND: usize = 8192;

const EXPRESSIONS: usize = 10240;

const HEADS: usize = 12288;

// What a record does; any other number skips it.
const RETURN_DOWN: u16 = 3;

const ADD: u16 = 4;

const CHOOSE: u16 = 5;

const ENTRY: u16 = 6;

const CLOSE: u16 = 7;

const OPEN: u16 = 8;

const RETURN_UP: u16 = 9;

const REPEAT: u16 = 10;

const ENTER: u16 = 11;

const SUBTRACT: u16 = 12;

const EXCLUDE: u16 = 14;

// The kinds of frames: of an IF whose test held, and did not; of a loop in its first part, and in its second; of a call.
const HELD: u16 = 0;

const FAILED: u16 = 1;

const IN_FIRST: u16 = 2;

const IN_SECOND: u16 = 3;

const CALLED: u16 = 4;
// No kind: there is no frame.
const NONE: u16 = 9;

// A place has so many slots, and 64 calls at most.
const SLOTS: usize = 1104;

const FULL: usize = 64 * CALL;

// Calls count so much in `depth`.
const CALL: usize = 4096;

// The half of a section for the way up.
const UP: usize = 1024;

// Where a step stands: the way of the record met; and in one number, which stays in a register, how many frames are calls (4,096
// for each) and how many there are.
#[derive(Clone, Copy)]
pub struct Spot {
    pub way: usize,
    pub depth: usize,
}

// What it does where nothing refuses it: the next way and the label before it, and how many frames are left. It writes the one slot
// that changes.
#[derive(Drop)]
pub struct Move {
    pub way: usize,
    pub a: u16,
    pub depth: usize,
}

// One frame more; a full place stays as it is.
fn push(
    kinds: &mut [u16; 1104],
    labels: &mut [u16; 1104],
    depth: usize,
    kind: u16,
    label: u16,
) -> usize
    ensures { (result ≡ depth_of (calls_in depth) (more_of (count_in depth))) × ((kinds.new ≡ put_in kinds.old (count_in depth) kind) × (labels.new ≡ put_in labels.old (count_in depth) label)) }
{
    let n = depth % CALL;
    if n < SLOTS {
        kinds[n] = kind;
        labels[n] = label;
        return depth + 1;
    }
    depth
}

// One frame less: its slot is cleared.
fn pop(kinds: &mut [u16; 1104], labels: &mut [u16; 1104], depth: usize) -> usize
    ensures { (result ≡ depth_of (calls_in depth) (fewer_of (count_in depth))) × ((kinds.new ≡ put_in kinds.old (slot_of (count_in depth)) 0) × (labels.new ≡ put_in labels.old (slot_of (count_in depth)) 0)) }
{
    let n = depth % CALL;
    if n == 0 {
        return depth;
    }
    if n <= SLOTS {
        kinds[n - 1] = 0;
        labels[n - 1] = 0;
    }
    depth - 1
}

// The innermost frame's kind.
fn change(kinds: &mut [u16; 1104], n: usize, kind: u16)
    ensures { kinds.new ≡ put_in kinds.old (slot_of n) kind }
{
    if n == 0 {
        return;
    }
    if n <= SLOTS {
        kinds[n - 1] = kind;
    }
}

// The entry of a way in a section of the map.
fn entry(map: &[u16; 14336], section: usize, way: usize) -> u16
    requires { (section + 2048 ≤ 14336) × (way < 2048) }
    ensures { result ≡ get_or map.now (section + way) 0 }
{
    map[section + way]
}

// Where one comes to where the test of the record holds or there is none, and where it does not hold.
fn onward(map: &[u16; 14336], way: usize) -> usize
    requires { way < 2048 }
    ensures { result ≡ yes_in map.now way }
{
    entry(map, ONWARD, way) as usize
}

fn elsewhere(map: &[u16; 14336], way: usize) -> usize
    requires { way < 2048 }
    ensures { result ≡ no_in map.now way }
{
    entry(map, ELSEWHERE, way) as usize
}

// Where its expression stands; and where a call leads, or what a SET writes: a cell, or an array.
fn expression(map: &[u16; 14336], way: usize) -> usize
    requires { way < 2048 }
    ensures { result ≡ expr_in map.now way }
{
    entry(map, EXPRESSIONS, way) as usize
}

fn target(map: &[u16; 14336], way: usize) -> usize
    requires { way < 2048 }
    ensures { result ≡ second_in map.now way }
{
    entry(map, SECOND, way) as usize
}

impl Spot {
    // On to another way, with so many frames.
    fn on(self, next: usize, depth: usize) -> Move
        ensures { result ≡ on_to (bare self) next depth }
    {
        Move {
            way: next,
            a: label_of(self.way),
            depth,
        }
    }

    // IF down and FI up choose: true takes s1, false s2.
    fn chosen(
        self,
        v: bool,
        kinds: &mut [u16; 1104],
        labels: &mut [u16; 1104],
        map: &[u16; 14336],
    ) -> Move
        requires { self.way < 2048 }
        ensures { Does (chosen_in (bare self) (number v) map.now) kinds.old labels.old (Ok result) kinds.new labels.new }
    {
        let head = entry(map, HEADS, self.way);
        if !v {
            let next = elsewhere(map, self.way);
            return self.on(next, push(kinds, labels, self.depth, FAILED, head));
        }
        let next = onward(map, self.way);
        self.on(next, push(kinds, labels, self.depth, HELD, head))
    }

    // IF up and FI down close: value and frame must agree.
    fn closed(
        self,
        v: bool,
        kinds: &mut [u16; 1104],
        labels: &mut [u16; 1104],
        map: &[u16; 14336],
    ) -> Result<Move, Reason>
        requires { self.way < 2048 }
        ensures { Does (closed_in (by_kind self kinds.old) (number v) map.now) kinds.old labels.old result kinds.new labels.new }
    {
        let kind = top_of(kinds, self.depth % CALL, NONE);
        // one test that nearly always holds, and none of the value by itself
        if !v == (kind == HELD) {
            return Err(Reason::WrongValue);
        }
        let next = onward(map, self.way);
        Ok(self.on(next, pop(kinds, labels, self.depth)))
    }

    // Whether one comes to the loop from its s2.
    fn again(self, head: u16, kinds: &[u16; 1104], labels: &[u16; 1104]) -> bool
        ensures { result ≡ again_in (sight self kinds.now labels.now) head }
    {
        let kind = top_of(kinds, self.depth % CALL, NONE);
        kind == IN_SECOND && top_of(labels, self.depth % CALL, 0) == head
    }

    // FROM down and UNTIL up open: true from outside, false from s2.
    fn opened(
        self,
        v: bool,
        kinds: &mut [u16; 1104],
        labels: &mut [u16; 1104],
        map: &[u16; 14336],
    ) -> Result<Move, Reason>
        requires { self.way < 2048 }
        ensures { Does (opened_in (sight self kinds.old labels.old) (number v) map.now) kinds.old labels.old result kinds.new labels.new }
    {
        let head = entry(map, HEADS, self.way);
        let next = onward(map, self.way);
        if self.again(head, kinds, labels) {
            if v {
                return Err(Reason::WrongValue);
            }
            change(kinds, self.depth % CALL, IN_FIRST);
            return Ok(self.on(next, self.depth));
        }
        if !v {
            return Err(Reason::WrongValue);
        }
        Ok(self.on(next, push(kinds, labels, self.depth, IN_FIRST, head)))
    }

    // UNTIL down and FROM up test: true leaves the loop, false enters s2.
    fn repeated(
        self,
        v: bool,
        kinds: &mut [u16; 1104],
        labels: &mut [u16; 1104],
        map: &[u16; 14336],
    ) -> Move
        requires { self.way < 2048 }
        ensures { Does (repeated_in (by_label self labels.old) (number v) map.now) kinds.old labels.old (Ok result) kinds.new labels.new }
    {
        if !v {
            let next = elsewhere(map, self.way);
            change(kinds, self.depth % CALL, IN_SECOND);
            return self.on(next, self.depth);
        }
        let next = onward(map, self.way);
        self.on(next, pop(kinds, labels, self.depth))
    }

    // A call enters a procedure at the edge that the map has; a 65th is refused.
    fn entered(
        self,
        kinds: &mut [u16; 1104],
        labels: &mut [u16; 1104],
        map: &[u16; 14336],
    ) -> Result<Move, Reason>
        requires { self.way < 2048 }
        ensures { Does (entered_in (bare self) map.now) kinds.old labels.old result kinds.new labels.new }
    {
        if FULL <= self.depth {
            return Err(Reason::TooDeep);
        }
        let depth = push(kinds, labels, self.depth, CALLED, label_of(self.way));
        let a = entry(map, FIRST, self.way);
        let way = target(map, self.way);
        Ok(Move {
            way,
            a,
            depth: depth + CALL,
        })
    }

    // Back at the calling record of a label, and on from there; `side` is the half of a section for the direction.
    fn back_to(
        self,
        label: u16,
        side: usize,
        kinds: &mut [u16; 1104],
        labels: &mut [u16; 1104],
        map: &[u16; 14336],
    ) -> Move
        requires { (4096 ≤ self.depth) × ((label < 1024) × (side ≤ 1024)) }
        ensures { Does (back_in (bare self) label side map.now) kinds.old labels.old (Ok result) kinds.new labels.new }
    {
        let way = onward(map, label as usize + side);
        let depth = pop(kinds, labels, self.depth);
        Move {
            way,
            a: label,
            depth: depth - CALL,
        }
    }

    // END down and BEGIN up return to the calling record; none is left at the end of main.
    fn returned(
        self,
        side: usize,
        kinds: &mut [u16; 1104],
        labels: &mut [u16; 1104],
        map: &[u16; 14336],
    ) -> Result<Move, Reason>
        requires { side ≤ 1024 }
        ensures { Does (returned_in (by_label self labels.old) side map.now) kinds.old labels.old result kinds.new labels.new }
    {
        if self.depth < CALL {
            return Err(Reason::AtEnd);
        }
        let label = top_of(labels, self.depth % CALL, 0);
        if 1024 <= label {
            return Err(Reason::Unfit);
        }
        Ok(self.back_to(label, side, kinds, labels, map))
    }
}

// A SET of a cell, with the operator o.
fn cell(
    s: Spot,
    o: usize,
    bytes: &[u8; 32784],
    map: &[u16; 14336],
    arrays: &[u16; 32],
    cells: &mut [i32; 2048],
) -> Result<Move, Reason>
    requires { s.way < 2048 }
    ensures { Sets (cell_in bytes.now map.now arrays.now (bare s) cells.old o) result cells.new }
{
    let at = expression(map, s.way);
    set_cell(bytes, at, o, target(map, s.way), arrays, cells)?;
    Ok(s.on(onward(map, s.way), s.depth))
}

// A SET of an entry.
fn cell_of_array(
    s: Spot,
    bytes: &[u8; 32784],
    map: &[u16; 14336],
    arrays: &[u16; 32],
    cells: &mut [i32; 2048],
) -> Result<Move, Reason>
    requires { s.way < 2048 }
    ensures { Sets (entry_in bytes.now map.now arrays.now (bare s) cells.old) result cells.new }
{
    let at = expression(map, s.way);
    let o = entry(map, FIRST, s.way) as usize;
    set_entry(bytes, at, o, target(map, s.way), arrays, cells)?;
    Ok(s.on(onward(map, s.way), s.depth))
}

// A loop's record, or one that is skipped. Here and in `tested` each act evaluates its expression by itself, so that the processor
// foresees each way on by itself.
fn looped(
    s: Spot,
    act: u16,
    kinds: &mut [u16; 1104],
    labels: &mut [u16; 1104],
    bytes: &[u8; 32784],
    map: &[u16; 14336],
    arrays: &[u16; 32],
    cells: &[i32; 2048],
) -> Result<Move, Reason>
    requires { s.way < 2048 }
    ensures { Does (looped_in (sight s kinds.old labels.old) act (truth_of (worth_at arrays.now cells.now (up_to 32768 16 bytes.now (expr_in map.now s.way)))) map.now) kinds.old labels.old result kinds.new labels.new }
{
    if act == OPEN {
        let v = truth(bytes, expression(map, s.way), cells, arrays)?;
        return s.opened(v, kinds, labels, map);
    }
    if act == REPEAT {
        let v = truth(bytes, expression(map, s.way), cells, arrays)?;
        return Ok(s.repeated(v, kinds, labels, map));
    }
    Ok(s.on(onward(map, s.way), s.depth))
}

// A record that tests, or is skipped.
fn tested(
    s: Spot,
    act: u16,
    kinds: &mut [u16; 1104],
    labels: &mut [u16; 1104],
    bytes: &[u8; 32784],
    map: &[u16; 14336],
    arrays: &[u16; 32],
    cells: &[i32; 2048],
) -> Result<Move, Reason>
    requires { s.way < 2048 }
    ensures { Does (tested_in (sight s kinds.old labels.old) act (truth_of (worth_at arrays.now cells.now (up_to 32768 16 bytes.now (expr_in map.now s.way)))) map.now) kinds.old labels.old result kinds.new labels.new }
{
    if act == CHOOSE {
        let v = truth(bytes, expression(map, s.way), cells, arrays)?;
        return Ok(s.chosen(v, kinds, labels, map));
    }
    if act == CLOSE {
        let v = truth(bytes, expression(map, s.way), cells, arrays)?;
        return s.closed(v, kinds, labels, map);
    }
    looped(s, act, kinds, labels, bytes, map, arrays, cells)
}

// The decision. Only a SET writes the store; the frames are written in place.
pub fn decide(
    s: Spot,
    kinds: &mut [u16; 1104],
    labels: &mut [u16; 1104],
    bytes: &[u8; 32784],
    map: &[u16; 14336],
    arrays: &[u16; 32],
    cells: &mut [i32; 2048],
) -> Result<Move, Reason>
    ensures { Rules (rule_in bytes.now map.now arrays.now (sight s kinds.old labels.old) cells.old) kinds.old labels.old result kinds.new labels.new cells.new }
{
    // no way is above, so that what follows asks the map without a test
    if 2048 <= s.way {
        return Err(Reason::Unfit);
    }
    let act = entry(map, ACTS, s.way);
    if act == ADD {
        return cell(s, 0, bytes, map, arrays, cells);
    }
    if act == SUBTRACT {
        return cell(s, 1, bytes, map, arrays, cells);
    }
    if act == EXCLUDE {
        return cell(s, 2, bytes, map, arrays, cells);
    }
    if act == ENTRY {
        return cell_of_array(s, bytes, map, arrays, cells);
    }
    if act == ENTER {
        return s.entered(kinds, labels, map);
    }
    if act == RETURN_DOWN {
        return s.returned(0, kinds, labels, map);
    }
    if act == RETURN_UP {
        return s.returned(UP, kinds, labels, map);
    }
    tested(s, act, kinds, labels, bytes, map, arrays, cells)
}
