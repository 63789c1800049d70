// The answer lines: number and record, then what was asked for.
use place::{FRAMES, Place};
use refusals::Refusal;
use std::io::{self, Print};

// The used frames, innermost first.
fn frames(rt: &impl Print, place: &Place) -> io::Result<()> {
    for i in (0..place.count.min(FRAMES)).rev() {
        print!(rt; " {} {}", place.kinds[i], place.labels[i])?;
    }
    Ok(())
}

// The unused slots that are not 0.
fn unused(rt: &impl Print, place: &Place) -> io::Result<()> {
    let top = place.count.min(FRAMES);
    for i in top..FRAMES {
        let k = place.kinds[i];
        let l = place.labels[i];
        if k != 0 || l != 0 {
            print!(rt; " x {} {k} {l}", i - top)?;
        }
    }
    Ok(())
}

// The cells that are not 0.
fn cells(rt: &impl Print, store: &[i32]) -> io::Result<()> {
    for (i, v) in store.iter().enumerate() {
        if *v != 0 {
            print!(rt; " {i}={v}")?;
        }
    }
    Ok(())
}

// The number and the record, 0 where there is none.
fn reason(rt: &impl Print, told: Result<(), Refusal>) -> io::Result<()> {
    match told {
        Ok(()) => print!(rt; "0 0"),
        Err(Refusal { reason, label }) => print!(rt; "{} {label}", reason.number()),
    }
}

// ` D A B COUNT K L .. x I K L .. | I=V ..`, and the line's end.
fn scene(rt: &impl Print, place: &Place, store: &[i32]) -> io::Result<()> {
    print!(rt;
        " {} {} {} {}",
        place.direction, place.a, place.b, place.count
    )?;
    frames(rt, place)?;
    unused(rt, place)?;
    print!(rt; " |")?;
    cells(rt, store)?;
    println!(rt)
}

// Of a move: the steps made, the place and the store.
pub(crate) fn tell_steps(
    rt: &impl Print,
    told: Result<(), Refusal>,
    steps: u32,
    place: &Place,
    store: &[i32],
) -> io::Result<()> {
    reason(rt, told)?;
    print!(rt; " {steps}")?;
    scene(rt, place, store)
}

// Of a reading: the place and the store.
pub(crate) fn tell_read(
    rt: &impl Print,
    told: Result<(), Refusal>,
    place: &Place,
    store: &[i32],
) -> io::Result<()> {
    reason(rt, told)?;
    scene(rt, place, store)
}

// Of a save: the bytes written, 0 where it is refused, and the whole buffer.
pub(crate) fn tell_saved(
    rt: &impl Print,
    saved: Result<usize, Refusal>,
    buffer: &[u8],
) -> io::Result<()> {
    reason(rt, saved.map(|_| ()))?;
    print!(rt; " {}", saved.unwrap_or(0))?;
    if !buffer.is_empty() {
        print!(rt; " ")?;
    }
    for b in buffer {
        print!(rt; "{b:02x}")?;
    }
    println!(rt)
}
