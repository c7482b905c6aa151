// Sends many stacks by both grounds, for comparison with another implementation.
#![tactic(auto)]

mod reading;

use anyhow::anyhow;
use frame::ClosedFrame;
use ground::{BareGrid, Ground, PeakGrid};
use sender::{MOST_BITS, send};
use std::alloc::Global;
use std::fmt::Write;
use std::io::Read;

// Bytes as two hexadecimal digits each, behind a blank if there are any.
fn add_bytes(page: &mut String, bytes: &[u8]) -> anyhow::Result<()> {
    if !bytes.is_empty() {
        page.push(' ')?;
    }
    for byte in bytes {
        write!(page, "{byte:02x}")?;
    }
    page.push('\n')?;
    Ok(())
}

// The bytes that hold the whole survey, and the number of its bits. `bench` counts into a buffer that it keeps.
fn whole<G: Ground>(ground: &G, heap: Global) -> anyhow::Result<(Vec<u8>, usize)> {
    let mut bytes = vec![in heap; 0u8; MOST_BITS.div_ceil(8)]?;
    let count = send(ground, MOST_BITS, &mut bytes, heap).map_err(|_| anyhow!("cannot send"))?;
    bytes.truncate(count.div_ceil(8));
    Ok((bytes, count))
}

// What a slot of half the survey leaves of a buffer full of ones.
fn add_cut(page: &mut String, ground: &PeakGrid, count: usize, heap: Global) -> anyhow::Result<()> {
    let mut bytes = vec![in heap; 255u8; count.div_ceil(8)]?;
    let slot = count / 2;
    send(ground, slot, &mut bytes, heap).map_err(|_| anyhow!("cannot send"))?;
    write!(page, "cut {slot}")?;
    add_bytes(page, &bytes)
}

fn add_stack(page: &mut String, frame: &ClosedFrame, heap: Global) -> anyhow::Result<()> {
    let bare = BareGrid::of(frame, heap)?;
    let peak = PeakGrid::of(frame, heap)?;
    let head = peak.head();
    let side = head.shape().side();
    let levels = head.shape().levels();
    let planes = head.planes();
    let (by_search, _) = whole(&bare, heap)?;
    let (by_peaks, count) = whole(&peak, heap)?;
    writeln!(
        page,
        "side {side} levels {levels} planes {planes} bits {count}"
    )?;
    page.push_str("bare")?;
    add_bytes(page, &by_search)?;
    page.push_str("peak")?;
    add_bytes(page, &by_peaks)?;
    add_cut(page, &peak, count, heap)
}

fn run(rt: &HostRuntime) -> anyhow::Result<()> {
    let heap = rt.alloc();
    let mut input = String::new(heap);
    rt.stdin().read_to_string(&mut input)?;
    let mut page = String::new(heap);
    for text in input.split('\x0c') {
        let frame = reading::stack(text, heap)?;
        add_stack(&mut page, &frame, heap)?;
    }
    rt.print(page)?;
    Ok(())
}

fn main(rt: HostRuntime) -> anyhow::Result<()> {
    run(&rt)
}
