// The text of a stack: a line with m and k, then a line for each row. A format of its own, with a fault for each line; what it shares with the other readers is the call of `enter`.
use crate::faults::{Expected, Fault};
use frame::{ClosedFrame, OpenFrame};
use head::Shape;
use std::alloc::Global;

// The input as text.
pub(crate) fn text(bytes: &[u8]) -> Result<&str, Fault> {
    std::str::from_utf8(bytes).map_err(|e| {
        let whole = bytes.iter().take(e.valid_up_to());
        let breaks = whole.filter(|byte| **byte == b'\n').count();
        Fault::Expected {
            line: breaks.saturating_add(1),
            what: Expected::Text,
        }
    })
}

// The two numbers of the first line.
fn numbers(line: &str) -> Option<(u8, u8)> {
    let mut words = line.split_ascii_whitespace();
    let exponent = words.next()?.parse::<u8>().ok()?;
    let levels = words.next()?.parse::<u8>().ok()?;
    words.next().is_none().then_some((exponent, levels))
}

fn shape(line: &str) -> Result<Shape, Fault> {
    let (exponent, levels) = numbers(line).ok_or(Fault::Expected {
        line: 1,
        what: Expected::Shape,
    })?;
    Shape::new(exponent, levels).map_err(|e| Fault::Refused {
        line: 1,
        refusal: e.into(),
    })
}

// Enters the words of a row, from left to right.
fn enter_row(frame: &mut OpenFrame, row: usize, text: &str) -> Result<(), Fault> {
    let line = row.saturating_add(2);
    let side = frame.shape().side();
    let mut words = text.split_ascii_whitespace();
    for column in 0..side {
        let word = words.next().ok_or(Fault::entries(line, side))?;
        if word != "." {
            let height = word.parse::<i32>().map_err(|_| Fault::Expected {
                line,
                what: Expected::Height,
            })?;
            frame
                .enter(row, column, height)
                .map_err(|e| Fault::Refused {
                    line,
                    refusal: e.into(),
                })?;
        }
    }
    if words.next().is_some() {
        return Err(Fault::entries(line, side));
    }
    Ok(())
}

// The frame that the text tells of, closed.
pub(crate) fn stack(text: &str, heap: Global) -> Result<ClosedFrame, Fault> {
    let (first, rest) = text.split_once('\n').unwrap_or((text, ""));
    let mut frame = OpenFrame::open(shape(first)?, heap)?;
    let side = frame.shape().side();
    let mut lines = rest.split('\n');
    for row in 0..side {
        let line = lines.next().ok_or(Fault::entries(row + 2, side))?;
        enter_row(&mut frame, row, line)?;
    }
    let mut beyond = lines.zip(side + 2..usize::MAX);
    match beyond.find(|(text, _)| text.split_ascii_whitespace().next().is_some()) {
        None => Ok(frame.close()),
        Some((_, line)) => Err(Fault::Expected {
            line,
            what: Expected::End,
        }),
    }
}
