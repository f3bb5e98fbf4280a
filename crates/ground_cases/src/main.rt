// Answers each case of a stream by the ground crates' public functions: a line for each. A case is a length of four
// octets and as many octets, of which the first says what is asked. tests/make.py has the list.
#![tactic(auto)]

ghost use Rattle.std.specs.Prelude.{◌<◌};

use answers::Walk;
use lines::{Answering, Hex, Lines};
use octets::{octet, word, word32};
use std::fmt;
use std::fmt::Write;

// The number in the two octets from `i`.
fn two(s: &[u8], i: usize) -> usize
    ensures { result < 65536 }
{
    (word32(s, i) % 65536) as usize
}

// ---- whole numbers and values

fn number_read(out: &mut Lines, s: &[u8]) -> fmt::Result {
    match whole::read_number(s) {
        Some((n, width)) => write!(out, "number {n} {width}"),
        None => write!(out, "broken"),
    }
}

fn number_written(out: &mut Lines, s: &[u8]) -> fmt::Result {
    let n = word32(s, 0);
    let mut octets = [0; 5];
    whole::put_number(&mut octets, 0, n);
    write!(out, "{}", Hex(&octets[..whole::number_width(n)]))
}

fn walked(out: &mut Lines, walk: Walk) -> fmt::Result {
    match walk {
        Ok(width) => write!(out, "ends {width}"),
        Err(place) => write!(out, "broken {place}"),
    }
}

fn value_walked(out: &mut Lines, s: &[u8]) -> fmt::Result {
    let Some(octets) = s.get(2..) else {
        return Ok(());
    };
    let form = value::form_of(word32(s, 0) % 65536);
    if form == value::UNKNOWN {
        return write!(out, "unknown");
    }
    walked(out, value::walk_value(form, octets))
}

fn is_text(octets: &[u8]) -> bool {
    value::walk_value(value::form_of(0x001F), octets) == Ok(octets.len())
}

// The case gives k and k octets. Behind these stand each octet but 0 in turn, and a 0: is that a text?
fn texts(out: &mut Lines, s: &[u8]) -> fmt::Result {
    let k = octet(s, 0) as usize;
    let Some(prefix) = s.get(1..1 + k) else {
        return Ok(());
    };
    let mut text = [0; 257];
    text[..k].copy_from_slice(prefix);
    for last in 1..=255 {
        text[k] = last;
        write!(out, "{}", u8::from(is_text(&text[..k + 2])))?;
    }
    Ok(())
}

// ---- the serial, presence bits and words

// The bits of n columns, or `-`; whether the spare ones are clear; and how many of the columns have a value.
fn presence_read(out: &mut Lines, s: &[u8]) -> fmt::Result {
    let Some(part) = s.get(2..) else {
        return Ok(());
    };
    let n = two(s, 0);
    if n == 0 {
        write!(out, "-")?;
    }
    for i in 0..n {
        write!(out, "{}", u8::from(presence::has(part, i)))?;
    }
    let spare = if presence::spare_clear(part, n) {
        "clear"
    } else {
        "spare"
    };
    write!(out, " {spare} {}", presence::count(part, n))
}

// A record of n columns with no values: its size and its presence octets.
fn empty_record(out: &mut Lines, s: &[u8]) -> fmt::Result {
    let size = 4 + presence::octets_for(two(s, 0));
    let mut octets = [255; 20];
    let Some(record) = octets.get_mut(..size) else {
        return Ok(());
    };
    octets::put_word(record, 0, 4, size as u64);
    octets::clear(record, 4, size);
    write!(out, "{}", Hex(record))
}

fn word_read(out: &mut Lines, s: &[u8]) -> fmt::Result {
    let Some(octets) = s.get(3..) else {
        return Ok(());
    };
    write!(out, "{}", word(octets, two(s, 1), octet(s, 0) as usize))
}

// ---- octets changed where they stand: each function answers the changed part

fn bit_set(s: &mut [u8]) -> Option<&[u8]> {
    let i = two(s, 0);
    let part = s.get_mut(2..)?;
    presence::set_bit(part, i);
    Some(part)
}

fn word_written(s: &mut [u8]) -> Option<&[u8]> {
    let width = octet(s, 0) as usize;
    let to = two(s, 1);
    let v = word(s, 3, 8);
    let part = s.get_mut(11..)?;
    octets::put_word(part, to, width, v);
    Some(part)
}

fn part_moved(s: &mut [u8]) -> Option<&[u8]> {
    let from = two(s, 0);
    let end = two(s, 2);
    let to = two(s, 4);
    let part = s.get_mut(6..)?;
    octets::move_part(part, from, end, to);
    Some(part)
}

fn part_cleared(s: &mut [u8]) -> Option<&[u8]> {
    let from = two(s, 0);
    let end = two(s, 2);
    let part = s.get_mut(4..)?;
    octets::clear(part, from, end);
    Some(part)
}

fn part_copied(s: &mut [u8]) -> Option<&[u8]> {
    let to = two(s, 0);
    let n = two(s, 2);
    let (source, part) = s.get_mut(4..)?.split_at_mut_checked(n)?;
    octets::copy(part, to, source);
    Some(part)
}

fn change(what: u8, s: &mut [u8]) -> Option<&[u8]> {
    match what {
        7 => bit_set(s),
        9 => word_written(s),
        10 => part_moved(s),
        11 => part_cleared(s),
        12 => part_copied(s),
        _ => None,
    }
}

// ---- the stream

fn answer(out: &mut Lines, what: u8, s: &mut [u8]) -> fmt::Result {
    match what {
        1 => number_read(out, s),
        2 => number_written(out, s),
        3 => value_walked(out, s),
        4 => write!(out, "{}", serial::serial_of(s)),
        5 => write!(out, "{}", presence::octets_for(two(s, 0))),
        6 => presence_read(out, s),
        8 => word_read(out, s),
        13 => empty_record(out, s),
        14 => texts(out, s),
        _ => match change(what, s) {
            Some(part) => write!(out, "{}", Hex(part)),
            None => write!(out, "no such case"),
        },
    }
}

// There is no line for an empty case.
fn one_case(out: &mut Lines, case: &mut [u8]) -> fmt::Result {
    let Some((what, s)) = case.split_first_mut() else {
        return Ok(());
    };
    answer(out, *what, s)?;
    writeln!(out)
}

#[derive(Clone, Copy)]
struct Ground;

impl Answering for Ground {
    fn answer(&mut self, out: &mut Lines, case: &mut [u8]) -> fmt::Result {
        one_case(out, case)
    }
}

fn main() {
    lines::answer_cases(&mut Ground);
}
