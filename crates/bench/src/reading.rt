// A stack as bytes: m, k, then for each cell in row order its height as two bytes, high byte first, -32768 for a cell without an echo. A format of its own; what it shares with the other readers is the call of `enter`.
use anyhow::anyhow;
use frame::{ClosedFrame, OpenFrame};
use head::Shape;
use std::alloc::Global;

const NO_ECHO: i16 = i16::MIN;

pub(crate) fn stack(bytes: &[u8], heap: Global) -> anyhow::Result<ClosedFrame> {
    let [exponent, levels, cells @ ..] = bytes else {
        return Err(anyhow!("expected m and k"));
    };
    let shape = Shape::new(*exponent, *levels).map_err(|_| anyhow!("expected m and k of a map"))?;
    let side = shape.side();
    let mut frame = OpenFrame::open(shape, heap)?;
    let (heights, _) = cells.as_chunks::<2>();
    for (place, pair) in heights.iter().enumerate() {
        let height = i16::from_be_bytes(*pair);
        if height == NO_ECHO {
            continue;
        }
        frame
            .enter(place / side, place % side, height.into())
            .map_err(|_| anyhow!("expected a height"))?;
    }
    Ok(frame.close())
}
