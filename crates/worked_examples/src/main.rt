// Works examples in written order, and prints each operation with what it wrote.
#![tactic(auto)]

mod bank;
mod examples;
mod state;
mod table;

use operations::RawOperation;
use registers::Write;
use state::State;
use std::io;

// A write as `r5 = -35`.
fn print_write(rt: &HostRuntime, write: Write) -> io::Result<()> {
    match write {
        Write::Word { to, value } => {
            let value = value.cast_signed();
            print!(rt; "{to} = {value}")
        }
        Write::Bit { to, value } => {
            let value = u8::from(value);
            print!(rt; "{to} = {value}")
        }
    }
}

// What the destinations got: `p2 = 1`, `p2 = 1, p3 = 0` or `nothing`.
fn print_writes(rt: &HostRuntime, first: Option<Write>, second: Option<Write>) -> io::Result<()> {
    match (first, second) {
        (Some(a), Some(b)) => {
            print_write(rt, a)?;
            print!(rt; ", ")?;
            print_write(rt, b)
        }
        (Some(only), None) | (None, Some(only)) => print_write(rt, only),
        (None, None) => print!(rt; "nothing"),
    }
}

// Executes one operation and prints it; what is refused is printed by its number.
fn work(rt: &HostRuntime, state: &mut State, raw: RawOperation) -> io::Result<()> {
    match raw.typed() {
        Ok(operation) => {
            let (first, second) = state.execute(&operation);
            print!(rt; "  {operation} writes ")?;
            print_writes(rt, first, second)?;
            println!(rt; "")
        }
        Err(refusal) => {
            let number = refusal.number();
            println!(rt; "  refused {number}")
        }
    }
}

fn reduce(rt: &HostRuntime, a: i32, b: i32, c: i32, d: i32) -> io::Result<()> {
    println!(rt;
        "p2 = (a < b) or not (c > d) or (a < c) or (b > d) for a = {a}, b = {b}, c = {c}, d = {d}"
    )?;
    let mut state = State::new();
    state.words.fixed[1] = a.cast_unsigned();
    state.words.fixed[2] = b.cast_unsigned();
    state.words.fixed[3] = c.cast_unsigned();
    state.words.fixed[4] = d.cast_unsigned();
    for raw in examples::or_reduction() {
        work(rt, &mut state, raw)?;
    }
    work(rt, &mut state, examples::copy_predicate())?;
    let p = u8::from(state.bits.fixed[2]);
    let copy = u8::from(state.bits.fixed[3]);
    println!(rt; "  result: p2 = {p}, copied to p3 = {copy}")
}

// An offset in hundredths of a metre, of which the gauge handles the whole metres and the rest apart.
fn set_out(rt: &HostRuntime, offset: i32) -> io::Result<()> {
    let magnitude = offset.unsigned_abs();
    let whole = offset / 100;
    let rest = magnitude % 100;
    println!(rt;
        "offset of {offset} hundredths of a metre: whole metres {whole}, hundredths {rest}"
    )?;
    let mut state = State::new();
    state.words.fixed[1] = offset.cast_unsigned();
    state.words.fixed[5] = magnitude;
    for raw in examples::signed_offset() {
        work(rt, &mut state, raw)?;
    }
    let marked = state.words.fixed[5].cast_signed();
    println!(rt; "  result: marked at {marked}")
}

fn main(rt: HostRuntime) -> io::Result<()> {
    reduce(&rt, 1, 2, 3, 4)?;
    reduce(&rt, 5, 1, 4, 3)?;
    reduce(&rt, 2, 2, 2, 2)?;
    reduce(&rt, -1, -2, 7, 6)?;
    reduce(&rt, 9, 8, 7, 6)?;
    set_out(&rt, -35)?;
    set_out(&rt, 35)?;
    set_out(&rt, 0)?;
    set_out(&rt, -135)
}
