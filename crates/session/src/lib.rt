// Session files: a place and its store as bytes, and back. Every public function is total.
#![tactic(auto)]

ghost use Rattle.std.specs.Prelude.{◌≡◌, ◌++◌, ◌+◌, ◌*◌, ◌≤◌, length, drop};
ghost use Rattle.std.proofs.lemmas.List.Edits.{sets};
ghost use Rattle.codes.specs.Codes.{bytes16};
ghost use Rattle.place.specs.Slots.{slots};
ghost use Rattle.session.specs.Session.{encode_store};
ghost use Rattle.session.specs.Parts.{encode_head, encode_cells};
ghost use Rattle.session.specs.Reader.{head_ok, kinds_ok, store_ok, cells_from, reading};
ghost use Rattle.session.specs.Answers.{is_found, place_of, count_of, filled, size_of, saved_of, written_of, laid, slot_bytes, column};

use place::Place;

// A file has at most so many frames, and so many cells.
// Stays: (a) beside place's own: the edit size_frames turns this one.
const FRAMES: usize = 1104;

const CELLS: usize = 16382;

// The kinds of its two records.
const PLACE_KIND: usize = 32;

const STORE_KIND: usize = 33;

// The bytes of a record's length and kind, of a PLACE record before its frames, of a frame and of a cell.
const HEAD: usize = 4;

const BEFORE_FRAMES: usize = 12;

const FRAME: usize = 4;

const CELL: usize = 4;

// The last direction, what stands behind it, and the last kind of a frame.
const UP: usize = 1;

const SPARE: usize = 0;

const CALL: usize = 4;

// ---- reading

// Whether what stands before the frames is as it must be, with room for the frames and a record's head more.
#[tactic(auto, using(std::proofs::lemmas::Bool::Decides::nat_tests), unfolding(crate::specs::Reader::head_ok))]
fn head_right(b: &[u8]) -> bool
    ensures { result ≡ head_ok b.now }
{
    let n = codes::short(b, 10);
    codes::short(b, 2) == PLACE_KIND
        && codes::byte(b, 4) <= UP
        && codes::byte(b, 5) == SPARE
        && n <= FRAMES
        && codes::short(b, 0) == BEFORE_FRAMES + FRAME * n
        && HEAD + BEFORE_FRAMES + FRAME * n <= b.len()
}

// Whether each of n frames has a kind of a frame.
fn kinds_right(b: &[u8], n: usize) -> bool
    requires { n ≤ 65535 }
    ensures { result ≡ kinds_ok n (drop 12 b.now) }
{
    (0..n).all(|i| codes::short(b, BEFORE_FRAMES + FRAME * i) <= CALL)
}

// Whether a STORE record fills the rest from `at`, in whole cells.
#[tactic(auto, using(std::proofs::lemmas::Bool::Decides::nat_tests), unfolding(crate::specs::Reader::store_ok))]
fn store_right(b: &[u8], at: usize) -> bool
    requires { at ≤ length b.now }
    ensures { result ≡ store_ok b.now at }
{
    let len = codes::short(b, at);
    codes::short(b, at + 2) == STORE_KIND && len == b.len() - at && len % CELL == 0
}

// Whether the file is one: all of 22.
#[tactic(auto, using(std::proofs::lemmas::Bool::Decides::nat_tests), unfolding(crate::specs::Reader::reading))]
pub fn well_formed(saved: &[u8]) -> bool
    ensures { result ≡ is_found (reading saved.now) }
{
    let n = codes::short(saved, 10);
    head_right(saved) && kinds_right(saved, n) && store_right(saved, BEFORE_FRAMES + FRAME * n)
}

// Slots of the u16 at `at` and every four bytes on, n of them, the first in slot n - 1.
fn column_at(b: &[u8], at: usize, n: usize) -> [u16; place::FRAMES]
    requires { (n ≤ 1104) × (at ≤ 65536) }
    ensures { result ≡ slots (column n (drop at b.now)) }
{
    let mut s = Place::blank().kinds;
    for i in 0..n {
        s[n - 1 - i] = codes::short(b, at + FRAME * i) as u16;
    }
    s
}

// The place of a file; none where the file is malformed.
pub fn place_in(saved: &[u8]) -> Option<Place>
    ensures { result ≡ place_of (reading saved.now) }
{
    if !well_formed(saved) {
        return None;
    }
    let count = codes::short(saved, 10);
    Some(Place {
        direction: codes::byte(saved, 4) as u8,
        a: codes::short(saved, 6) as u16,
        b: codes::short(saved, 8) as u16,
        count,
        kinds: column_at(saved, BEFORE_FRAMES, count),
        labels: column_at(saved, BEFORE_FRAMES + 2, count),
    })
}

// The number of cells of a file; none where the file is malformed.
pub fn cells_in(saved: &[u8]) -> Option<usize>
    ensures { result ≡ count_of (reading saved.now) }
{
    if !well_formed(saved) {
        return None;
    }
    let at = HEAD + BEFORE_FRAMES + FRAME * codes::short(saved, 10);
    Some((saved.len() - at) / CELL)
}

// Fills `out` with the cells from `at`.
fn copy_cells(b: &[u8], at: usize, out: &mut [i32])
    requires { at ≤ 65536 }
    ensures { out.new ≡ sets out.old 0 (cells_from (length out.old) (drop at b.now)) }
{
    for (i, cell) in out.iter_mut().enumerate() {
        *cell = codes::long(b, at + CELL * i);
    }
}

// Fills the store with the cells of a file that has as many, and else leaves it.
pub fn get_cells(saved: &[u8], store: &mut [i32])
    ensures { store.new ≡ filled (reading saved.now) store.old }
{
    if let Some(n) = cells_in(saved)
        && n == store.len()
    {
        let at = HEAD + BEFORE_FRAMES + FRAME * codes::short(saved, 10);
        copy_cells(saved, at, store);
    }
}

// ---- saving

// The size of a file with so many frames and cells; none where there is none such.
#[tactic(auto, using(std::proofs::lemmas::Bool::Decides::nat_tests), unfolding(crate::specs::Answers::size_of))]
pub fn size_of(count: usize, cells: usize) -> Option<usize>
    ensures { result ≡ size_of count cells }
{
    if count <= FRAMES && cells <= CELLS {
        Some(HEAD + BEFORE_FRAMES + FRAME * count + CELL * cells)
    } else {
        None
    }
}

// Writes two u16 from `at`.
fn put_pair(buf: &mut [u8], at: usize, x: u16, y: u16)
    requires { at + 4 ≤ length buf.old }
    ensures { buf.new ≡ sets buf.old at (bytes16 x ++ bytes16 y) }
{
    codes::put_short(buf, at, x);
    codes::put_short(buf, at + 2, y);
}

// Writes the PLACE record: its head, and the frames of the first slots, innermost first.
fn put_place(buf: &mut [u8], h: &Place)
    requires { (h.now.count ≤ 1104) × (12 + 4 * h.now.count ≤ length buf.old) }
    ensures { buf.new ≡ sets buf.old 0 (encode_head h.now.direction h.now.a h.now.b h.now.count ++ slot_bytes h.now.count h.now.kinds h.now.labels) }
{
    let n = h.count;
    let size = BEFORE_FRAMES + FRAME * n;
    put_pair(buf, 0, size as u16, PLACE_KIND as u16);
    put_pair(buf, 4, u16::from(h.direction), h.a);
    put_pair(buf, 8, h.b, n as u16);
    for i in 0..n {
        let slot = n - 1 - i;
        put_pair(
            buf,
            BEFORE_FRAMES + FRAME * i,
            h.kinds[slot],
            h.labels[slot],
        );
    }
}

// Writes the cells from `at`.
fn put_cells(buf: &mut [u8], at: usize, store: &[i32])
    requires { at + 4 * length store.now ≤ length buf.old }
    ensures { buf.new ≡ sets buf.old at (encode_cells store.now) }
{
    for (i, cell) in store.iter().enumerate() {
        codes::put_long(buf, at + CELL * i, *cell);
    }
}

// Writes the STORE record from `at`.
fn put_store(buf: &mut [u8], at: usize, store: &[i32])
    requires { (length store.now ≤ 16382) × (at + (4 + 4 * length store.now) ≤ length buf.old) }
    ensures { buf.new ≡ sets buf.old at (encode_store store.now) }
{
    let size = HEAD + CELL * store.len();
    put_pair(buf, at, size as u16, STORE_KIND as u16);
    put_cells(buf, at + HEAD, store);
}

// Saves a place and a store: the bytes written, none where there is no such file or the buffer is too short for it.
pub fn put_session(h: Place, store: &[i32], buf: &mut [u8]) -> Option<usize>
    ensures { (result ≡ written_of (saved_of h store.now buf.old))
        × (buf.new ≡ laid buf.old (saved_of h store.now buf.old)) }
{
    if !place::plain(h) {
        return None;
    }
    let size = size_of(h.count, store.len())?;
    if buf.len() < size {
        return None;
    }
    put_place(buf, &h);
    put_store(buf, BEFORE_FRAMES + FRAME * h.count, store);
    Some(size)
}
