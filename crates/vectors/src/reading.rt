// A stack as words: m, k, then the heights row by row, `.` for a cell without an echo. Another format than that of `bench` or `survey`; what the readers share is the call of `enter`.
use anyhow::anyhow;
use frame::{ClosedFrame, OpenFrame};
use head::Shape;
use std::alloc::Global;

fn shape(exponent: Option<&str>, levels: Option<&str>) -> anyhow::Result<Shape> {
    let (Some(exponent), Some(levels)) = (exponent, levels) else {
        return Err(anyhow!("expected m and k"));
    };
    Shape::new(exponent.parse::<u8>()?, levels.parse::<u8>()?).map_err(|_| anyhow!(
        "expected m and k of a map"
    ))
}

pub(crate) fn stack(text: &str, heap: Global) -> anyhow::Result<ClosedFrame> {
    let mut words = text.split_ascii_whitespace();
    let shape = shape(words.next(), words.next())?;
    let side = shape.side();
    let mut frame = OpenFrame::open(shape, heap)?;
    for (place, word) in words.enumerate() {
        if word == "." {
            continue;
        }
        frame
            .enter(place / side, place % side, word.parse::<i32>()?)
            .map_err(|_| anyhow!("expected a height"))?;
    }
    Ok(frame.close())
}
