//! Values at numbers: many come, all go, and then as many come and go.

use anyhow::Result;
use ipc_containers::Numbered;
use ipc_terms::NoMemory;

/// Pushes the value. Nobody comes to the last number.
fn push(values: &mut Numbered<usize>, value: usize) -> Result<(), NoMemory> {
    if values.next_number() == usize::MAX {
        return Err(NoMemory);
    }
    values.push(value)
}

fn fill(values: &mut Numbered<usize>, count: usize) -> Result<(), NoMemory> {
    for value in 0..count {
        push(values, value)?;
    }
    Ok(())
}

/// Takes the values at the numbers below `count`, the newest first.
fn take_all(values: &mut Numbered<usize>, count: usize) {
    for number in (0..count).rev() {
        values.take(number);
    }
}

fn come_and_go(values: &mut Numbered<usize>, count: usize) -> Result<(), NoMemory> {
    for value in 0..count {
        let number = values.next_number();
        push(values, value)?;
        values.take(number);
    }
    Ok(())
}

/// So many values come, all go, and then as many come and go one at a time. Prints a line after each, so that one who counts
/// memory at each write sees how much is left.
pub fn run(rt: &HostRuntime, count: usize) -> Result<()> {
    let mut values = Numbered::new(rt.alloc());
    println!(rt; "new")?;
    fill(&mut values, count)?;
    println!(rt; "filled")?;
    take_all(&mut values, count);
    println!(rt; "taken")?;
    come_and_go(&mut values, count)?;
    println!(rt; "gone on")?;
    Ok(())
}
