//! The texts of exports, made line by line. One line in fifty is blank, broken or of another form.
use crate::purchases::{city, placed};
use crate::random::Random;
use std::alloc::{AllocError, Global};
use std::fmt::Write;

// A line that is no item's, in one of some ways.
fn push_broken(text: &mut String, random: &mut Random) -> Result<(), AllocError> {
    text.push_str(match random.below(6) {
        0 => "   ",
        1 => "{\"Item\":{\"id\":{\"S\":\"cut o",
        2 => "{\"Keys\":{\"id\":{\"S\":\"user-00001\"}}}",
        3 => "{\"Item\":{\"id\":{\"S\":\"user-00001\"},\"age\":{\"T\":\"1\"}}}",
        4 =>
            "{\"Item\":{\"id\":{\"S\":\"user-00001\"},\"name\":{\"S\":\"n\"},\"age\":{\"N\":\"1000\"}}}",
        _ => "{\"Item\":{\"id\":{\"S\":\"user-00001\"},\"name\":{\"S\":\"n\"}}}",
    })?;
    text.push('\n')
}

/// Lines of users, of about 80 bytes.
pub fn users(alloc: Global, random: &mut Random, count: u64) -> Result<String, AllocError> {
    let mut text = String::new(alloc);
    for _ in 0..count {
        if random.is_one_in(50) {
            push_broken(&mut text, random)?;
        }
        let (number, age) = (random.below(100_000), random.below(100));
        writeln!(
            text,
            "{{\"Item\":{{\"age\":{{\"N\":\"{age}\"}},\"id\":{{\"S\":\"user-{number:05}\"}},\"name\":{{\"S\":\"Name {number}\"}}}}}}"
        )?;
    }
    Ok(text)
}

// Where a purchase is.
fn push_shipment(text: &mut String, random: &mut Random) -> Result<(), AllocError> {
    let number = random.below(1_000_000_000);
    match random.below(4) {
        0 => write!(text, "{{\"S\":\"Waiting\"}}")?,
        1 => write!(
            text,
            "{{\"M\":{{\"Tracked\":{{\"S\":\"1Z999AA{number:09}\"}}}}}}"
        )?,
        2 => write!(
            text,
            "{{\"M\":{{\"Between\":{{\"L\":[{{\"N\":\"3\"}},{{\"N\":\"{}\"}}]}}}}}}",
            number % 100
        )?,
        _ => {
            write!(
                text,
                "{{\"M\":{{\"Delivered\":{{\"M\":{{\"at\":{{\"N\":\"{number}\"}},\"to\":"
            )?;
            push_address(text, random)?;
            text.push_str("}}}}")?;
        }
    }
    Ok(())
}

fn push_address(text: &mut String, random: &mut Random) -> Result<(), AllocError> {
    let city = city(random);
    write!(text, "{{\"M\":{{\"city\":{{\"S\":\"{city}\"}}")?;
    if random.is_one_in(4) {
        text.push_str(",\"zip\":{\"NULL\":true}}}")
    } else {
        let zip = random.below(100_000);
        write!(text, ",\"zip\":{{\"N\":\"{zip}\"}}}}}}")?;
        Ok(())
    }
}

fn push_articles(text: &mut String, random: &mut Random) -> Result<(), AllocError> {
    text.push_str("{\"L\":[{\"S\":\"delivery\"}")?;
    for _ in 0..random.below(6) {
        let number = random.below(10_000);
        write!(text, ",{{\"S\":\"article {number}\"}}")?;
    }
    text.push_str("]}")
}

/// Lines of purchases, of about 500 bytes.
pub fn purchases(alloc: Global, random: &mut Random, count: u64) -> Result<String, AllocError> {
    let mut text = String::new(alloc);
    for _ in 0..count {
        if random.is_one_in(50) {
            push_broken(&mut text, random)?;
        }
        let by = random.below(1_000);
        let placed = placed(alloc, random.below(5_000))?;
        let amount = random.below(1_000_000);
        write!(
            text,
            "{{\"Item\":{{\"customer\":{{\"S\":\"customer-{by:06}\"}},\"placed\":{{\"S\":\"{placed}\"}},"
        )?;
        write!(text, "\"amount\":{{\"N\":\"{amount}\"}},\"note\":")?;
        if random.is_one_in(3) {
            let floor = random.below(30);
            write!(
                text,
                "{{\"S\":\"please ring twice, \\\"{floor}th\\\" floor\"}}"
            )?;
        } else {
            text.push_str("{\"NULL\":true}")?;
        }
        text.push_str(",\"articles\":")?;
        push_articles(&mut text, random)?;
        text.push_str(",\"shipment\":")?;
        push_shipment(&mut text, random)?;
        text.push_str(",\"home\":")?;
        push_address(&mut text, random)?;
        text.push_str("}}\n")?;
    }
    Ok(text)
}

// One of the attributes of a wide item.
fn push_attribute(text: &mut String, random: &mut Random) -> Result<(), AllocError> {
    let (one, other) = (random.next(), random.next());
    match random.below(8) {
        0 => write!(
            text,
            "{{\"N\":\"{one:020}{:018}\"}}",
            other % 1_000_000_000_000_000_000
        )?,
        1 => write!(
            text,
            "{{\"S\":\"a line\\nwith \\\"quotes\\\", a \\\\ and \\u00e9 {one}\"}}"
        )?,
        2 => write!(
            text,
            "{{\"S\":\"the quick brown fox jumps over the lazy dog {one} times and then {other} times\"}}"
        )?,
        3 => write!(
            text,
            "{{\"SS\":[\"red {one}\",\"green\",\"blue {other}\"]}}"
        )?,
        4 => write!(
            text,
            "{{\"NS\":[\"{one}\",\"-{other}.5\",\"1\",\"2\",\"3\"]}}"
        )?,
        5 => write!(text, "{{\"B\":\"{one:012x}{other:012x}dGVz\"}}")?,
        6 => write!(
            text,
            "{{\"L\":[{{\"N\":\"{one}\"}},{{\"BOOL\":true}},{{\"L\":[{{\"S\":\"in {other}\"}}]}}]}}"
        )?,
        _ => write!(
            text,
            "{{\"M\":{{\"width\":{{\"N\":\"{one}\"}},\"colour\":{{\"S\":\"grün\"}},\"at\":{{\"M\":{{\"x\":{{\"N\":\"{other}\"}}}}}}}}}}"
        )?,
    }
    Ok(())
}

/// Lines of wide items, of 500 bytes to 2 KB.
pub fn wide(alloc: Global, random: &mut Random, count: u64) -> Result<String, AllocError> {
    let mut text = String::new(alloc);
    for _ in 0..count {
        if random.is_one_in(50) {
            push_broken(&mut text, random)?;
        }
        let number = random.below(1_000_000);
        write!(text, "{{\"Item\":{{\"id\":{{\"S\":\"wide-{number:06}\"}}")?;
        for place in 0..random.below(16).wrapping_add(5) {
            write!(text, ",\"attribute_{place}\":")?;
            push_attribute(&mut text, random)?;
        }
        text.push_str("}}\n")?;
    }
    Ok(text)
}
