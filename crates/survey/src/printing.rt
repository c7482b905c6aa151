// What is printed of a stack.
use crate::faults::Fault;
use head::Shape;
use heights::Coefficients;
use heights::undoing::{CoefficientGrid, map};
use std::alloc::Global;
use std::fmt::Write;

// Numbers in row order, a line for each row.
fn add_rows(page: &mut String, numbers: &[i32], shape: Shape) -> Result<(), Fault> {
    for row in numbers.chunks_exact(shape.side()) {
        let mut before = "";
        for number in row {
            write!(page, "{before}{number}")?;
            before = " ";
        }
        page.push('\n')?;
    }
    Ok(())
}

pub(crate) fn page(coefficients: &Coefficients, heap: Global) -> Result<String, Fault> {
    let head = coefficients.head();
    let shape = head.shape();
    let side = shape.side();
    let levels = shape.levels();
    let planes = head.planes();
    let mut page = format!(in heap; "side {side} levels {levels} planes {planes}\ncoefficients\n")?;
    add_rows(&mut page, coefficients.values(), shape)?;
    page.push_str("heights\n")?;
    let mut heights = vec![in heap; 0i32; shape.area()]?;
    map(coefficients, &mut heights).unwrap();
    add_rows(&mut page, &heights, shape)?;
    Ok(page)
}
