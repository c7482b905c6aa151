// Times the boom's work on one stack. With an argument, each phase is run so many times, and the fastest is said on standard error in nanoseconds.
#![tactic(auto)]

mod clock;
mod reading;

use anyhow::anyhow;
use clock::Fastest;
use frame::ClosedFrame;
use ground::{BareGrid, Ground, PeakGrid};
use heights::Coefficients;
use sender::{MOST_BITS, send};
use std::alloc::Global;
use std::env;
use std::io::Read;

// The fastest times of the phases.
#[derive(Default, Drop)]
struct Times {
    transform: Fastest,
    bare: Fastest,
    peak: Fastest,
    send_bare: Fastest,
    send_peak: Fastest,
}

// Sends the whole survey into a buffer that is kept, so that its time is not the allocator's, and answers its bits; `vectors` hands out the bytes.
fn whole<G: Ground>(ground: &G, out: &mut [u8], heap: Global) -> anyhow::Result<usize> {
    send(ground, MOST_BITS, out, heap).map_err(|_| anyhow!("cannot send"))
}

// The 32-bit FNV-1a hash.
fn hash(bytes: &[u8]) -> u32 {
    bytes.iter().fold(2166136261, |sum: u32, byte| {
        (sum ^ u32::from(*byte)).wrapping_mul(16777619)
    })
}

// Every phase once.
fn round(
    rt: &HostRuntime,
    frame: &ClosedFrame,
    out: &mut [u8],
    times: &mut Times,
) -> anyhow::Result<usize> {
    let heap = rt.alloc();
    let coefficients = times.transform.time(rt, || Coefficients::of(frame, heap))??;
    let bare = times.bare.time(rt, || BareGrid::over(coefficients))?;
    let by_search = times.send_bare.time(rt, || whole(&bare, out, heap))??;
    let coefficients = Coefficients::of(frame, heap)?;
    let peak = times.peak.time(rt, || PeakGrid::over(coefficients, heap))??;
    let by_peaks = times.send_peak.time(rt, || whole(&peak, out, heap))??;
    if by_search == by_peaks {
        Ok(by_peaks)
    } else {
        Err(anyhow!("the grounds differ"))
    }
}

fn report(rt: &HostRuntime, times: &Times) -> anyhow::Result<()> {
    let transform = times.transform.nanoseconds();
    let bare = times.bare.nanoseconds();
    let peak = times.peak.nanoseconds();
    let send_bare = times.send_bare.nanoseconds();
    let send_peak = times.send_peak.nanoseconds();
    eprintln!(rt; "transform {transform}\nbare {bare}\npeak {peak}")?;
    eprintln!(rt; "send_bare {send_bare}\nsend_peak {send_peak}")?;
    Ok(())
}

// How many rounds the argument asks for, if there is one.
fn rounds(rt: &HostRuntime) -> anyhow::Result<Option<u32>> {
    let word = env::args(rt)?.nth(1);
    Ok(word.map(|word| word.as_str().parse::<u32>()).transpose()?)
}

fn run(rt: &HostRuntime) -> anyhow::Result<()> {
    let heap = rt.alloc();
    let mut input = Vec::new(heap);
    rt.stdin().read_to_end(&mut input)?;
    let frame = reading::stack(&input, heap)?;
    let mut out = vec![in heap; 0u8; MOST_BITS.div_ceil(8)]?;
    let mut times = Times::default();
    let asked = rounds(rt)?;
    let mut count = 0;
    for _ in 0..asked.unwrap_or(1) {
        count = round(rt, &frame, &mut out, &mut times)?;
    }
    let size = count.div_ceil(8).min(out.len());
    let sum = hash(&out[..size]);
    println!(rt; "bits {count}\nsum {sum}")?;
    if asked.is_some() {
        report(rt, &times)?;
    }
    Ok(())
}

fn main(rt: HostRuntime) -> anyhow::Result<()> {
    run(&rt)
}
