//! Values at numbers, as a table of steps.

use ipc_containers::{Numbered, NumberedBoxes};
use ipc_terms::NoMemory;
use std::alloc::Global;
use std::test::Fail;

/// One step on the values, and what it is to give.
enum Step {
    /// Starts again, without values.
    New,
    /// Pushes this value, which gets this number.
    Push(u32, usize),
    Get(usize, Option<u32>),
    /// Another value stands at the number, if one stands there.
    Set(usize, u32),
    Take(usize, Option<u32>),
    Undo,
    NextNumber(usize),
    /// Pushes values, each its own number, until this is the next number.
    PushTo(u32),
    /// Takes the values at the numbers from the one to below the other.
    TakeAll(usize, usize),
    /// So many values come and go, one at a time.
    ComeAndGo(u32),
}

use Step::{ComeAndGo, Get, New, NextNumber, Push, PushTo, Set, Take, TakeAll, Undo};

static STEPS: [Step; 84] = [
    // No values.
    New,
    NextNumber(0),
    Get(0, None),
    Take(0, None),
    Set(0, 5),
    Get(0, None),
    NextNumber(0),
    // Each value has the next number.
    New,
    Push(30, 0),
    Push(10, 1),
    Push(20, 2),
    NextNumber(3),
    Get(0, Some(30)),
    Get(1, Some(10)),
    Get(2, Some(20)),
    Get(3, None),
    // A value is changed.
    Set(1, 11),
    Get(0, Some(30)),
    Get(1, Some(11)),
    Get(2, Some(20)),
    // The number of a value that was taken isn't given again.
    Take(1, Some(11)),
    Get(1, None),
    Take(1, None),
    Set(1, 12),
    Get(1, None),
    Get(2, Some(20)),
    NextNumber(3),
    Push(40, 3),
    Get(3, Some(40)),
    Take(3, Some(40)),
    NextNumber(4),
    // The number of a push that is undone is.
    Undo,
    NextNumber(3),
    Undo,
    NextNumber(2),
    Get(0, Some(30)),
    Get(2, None),
    Push(50, 2),
    Get(2, Some(50)),
    Get(1, None),
    New,
    Undo,
    NextNumber(0),
    // Values are found among many, of which most are taken in the end.
    PushTo(70),
    Get(31, Some(31)),
    Get(32, Some(32)),
    Get(64, Some(64)),
    Get(70, None),
    TakeAll(0, 40),
    Get(31, None),
    Get(32, None),
    Get(39, None),
    Get(40, Some(40)),
    Take(64, Some(64)),
    TakeAll(40, 70),
    Get(69, None),
    NextNumber(70),
    Push(7, 70),
    Get(70, Some(7)),
    Get(38, None),
    Get(6, None),
    // Two values outlive many that stand behind them.
    New,
    PushTo(3),
    Take(0, Some(0)),
    ComeAndGo(200),
    NextNumber(203),
    Get(0, None),
    Get(1, Some(1)),
    Get(2, Some(2)),
    Get(3, None),
    Get(202, None),
    Set(1, 11),
    Get(1, Some(11)),
    Push(9, 203),
    Get(203, Some(9)),
    Undo,
    NextNumber(203),
    Get(203, None),
    Take(1, Some(11)),
    Get(1, None),
    Take(1, None),
    Get(2, Some(2)),
    Push(8, 203),
    Get(203, Some(8)),
];

/// Pushes the value, and gives its number. No test comes to the last one.
fn push(values: &mut Numbered<u32>, value: u32) -> Result<usize, NoMemory> {
    let number = values.next_number();
    if number == usize::MAX {
        return Err(NoMemory);
    }
    values.push(value)?;
    Ok(number)
}

/// Pushes the value, and says whether it got this number.
fn pushes(values: &mut Numbered<u32>, value: u32, number: usize) -> Result<bool, NoMemory> {
    Ok(push(values, value)? == number)
}

/// Pushes the numbers from 0 on, and says whether each got its own.
fn pushes_to(values: &mut Numbered<u32>, next: u32) -> Result<bool, NoMemory> {
    for number in 0..next {
        if !pushes(values, number, number as usize)? {
            return Ok(false);
        }
    }
    Ok(true)
}

/// Takes the values at the numbers from the one to below the other.
fn take_all(values: &mut Numbered<u32>, from: usize, to: usize) {
    for number in from..to {
        values.take(number);
    }
}

/// So many values come and go, one at a time.
fn come_and_go(values: &mut Numbered<u32>, count: u32) -> Result<(), NoMemory> {
    for value in 0..count {
        let number = push(values, value)?;
        values.take(number);
    }
    Ok(())
}

/// Puts another value at the number, if one stands there.
fn set(values: &mut Numbered<u32>, number: usize, next: u32) {
    if let Some(value) = values.get_mut(number) {
        *value = next;
    }
}

/// Does the step, and says whether it gave what it is to give.
fn gives(alloc: Global, values: &mut Numbered<u32>, step: &Step) -> Result<bool, NoMemory> {
    match *step {
        New => *values = Numbered::new(alloc),
        Push(value, number) => return pushes(values, value, number),
        Get(number, wanted) => return Ok(values.get(number).copied() == wanted),
        Set(number, value) => set(values, number, value),
        Take(number, wanted) => return Ok(values.take(number) == wanted),
        Undo => values.undo_push(),
        PushTo(next) => return pushes_to(values, next),
        TakeAll(from, to) => take_all(values, from, to),
        ComeAndGo(count) => come_and_go(values, count)?,
        NextNumber(wanted) => return Ok(values.next_number() == wanted),
    }
    Ok(true)
}

/// Does the steps in order.
fn all_give(alloc: Global, values: &mut Numbered<u32>, steps: &[Step]) -> Result<(), Fail> {
    for (row, step) in steps.iter().enumerate() {
        if !gives(alloc, values, step)? {
            return Err(Fail::new(format_args!("row {row} gives something else")));
        }
    }
    Ok(())
}

#[test]
fn worked_numbers(rt: HostRuntime) -> Result<(), Fail> {
    let mut values = Numbered::new(rt.alloc());
    all_give(rt.alloc(), &mut values, &STEPS)
}

#[test]
fn the_next_of_few_and_of_many(rt: HostRuntime) -> Result<(), Fail> {
    let mut values = Numbered::new(rt.alloc());
    pushes_to(&mut values, 3)?;
    values.take(0);
    come_and_go(&mut values, 200)?;
    assert_eq!(rt; values.next_from(0), Some(1));
    assert_eq!(rt; values.next_from(2), Some(2));
    assert_eq!(rt; values.next_from(3), None);
    values.push(9)?;
    assert_eq!(rt; values.next_from(3), Some(203));
    Ok(())
}

#[test]
fn the_next_of_boxes(rt: HostRuntime) -> Result<(), Fail> {
    let mut boxes = NumberedBoxes::new(rt.alloc());
    boxes.push(30)?;
    boxes.push(10)?;
    boxes.take(0);
    assert_eq!(rt; boxes.next_from(0), Some(1));
    assert_eq!(rt; boxes.next_from(2), None);
    Ok(())
}

#[test]
fn a_passed_number_is_given_a_value(rt: HostRuntime) -> Result<(), Fail> {
    let mut values = Numbered::new(rt.alloc());
    values.push_empty()?;
    assert_eq!(rt; values.next_number(), 1);
    assert_eq!(rt; values.get(0).copied(), None);
    values.put(0, 7)?;
    assert_eq!(rt; values.get(0).copied(), Some(7));
    Ok(())
}
