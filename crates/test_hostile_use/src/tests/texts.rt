//! Broken and unusual texts of edges, each asked by all commands of `routes`.

use pf_routes::routes::{Command, Noted, RouteError, command, run};
use std::alloc::Global;

/// What is printed: on standard output with status 0, or on standard error with status 1, where
/// standard output stays empty.
type Printed<'a> = Result<&'a [u8], &'a str>;

/// The commands that each text is asked.
const COMMANDS: &[&str] = &[
    "dijkstra a b",
    "bfs a b",
    "kruskal",
    "yen a b 3",
    "yen a b all",
    "flow a b",
];

/// What the commands print about no edges.
const NOTHING: &[Printed<'static>] = &[
    Ok(b"none\n"),
    Ok(b"none\n"),
    Ok(b""),
    Ok(b"none\n"),
    Ok(b"none\n"),
    Ok(b"0\n"),
];

/// What they print about an edge from a to b at cost 7.
const SEVEN: &[Printed<'static>] = &[
    Ok(b"7: a b\n"),
    Ok(b"1: a b\n"),
    Ok(b"a b 7\n"),
    Ok(b"7: a b\n"),
    Ok(b"7: a b\n"),
    Ok(b"7\na b 7\n"),
];

/// What they print about edges from a to c at cost 1 and from c to b at cost 2.
const TWO: &[Printed<'static>] = &[
    Ok(b"3: a c b\n"),
    Ok(b"2: a c b\n"),
    Ok(b"a c 1\nc b 2\n"),
    Ok(b"3: a c b\n"),
    Ok(b"3: a c b\n"),
    Ok(b"1\na c 1\n"),
];

/// What they print about an edge from a to b at the greatest cost.
const GREATEST: &[Printed<'static>] = &[
    Ok(b"18446744073709551615: a b\n"),
    Ok(b"1: a b\n"),
    Ok(b"a b 18446744073709551615\n"),
    Ok(b"18446744073709551615: a b\n"),
    Ok(b"18446744073709551615: a b\n"),
    Ok(b"18446744073709551615\na b 18446744073709551615\n"),
];

/// What they print where the first line is bad.
const FIRST_BAD: &[Printed<'static>] = &[
    Err("line 1: bad edge\n"),
    Err("line 1: bad edge\n"),
    Err("line 1: bad edge\n"),
    Err("line 1: bad edge\n"),
    Err("line 1: bad edge\n"),
    Err("line 1: bad edge\n"),
];

/// What they print where the fourth line is the first bad one.
const FOURTH_BAD: &[Printed<'static>] = &[
    Err("line 4: bad edge\n"),
    Err("line 4: bad edge\n"),
    Err("line 4: bad edge\n"),
    Err("line 4: bad edge\n"),
    Err("line 4: bad edge\n"),
    Err("line 4: bad edge\n"),
];

/// What they print where the line behind a megabyte of line ends is bad.
const LATE_BAD: &[Printed<'static>] = &[
    Err("line 1048577: bad edge\n"),
    Err("line 1048577: bad edge\n"),
    Err("line 1048577: bad edge\n"),
    Err("line 1048577: bad edge\n"),
    Err("line 1048577: bad edge\n"),
    Err("line 1048577: bad edge\n"),
];

/// Texts about which the commands print the same, and what they print.
type Alike<'a> = (&'a [&'a [u8]], &'a [Printed<'a>]);

/// Texts of good lines.
const GOOD: &[Alike<'static>] = &[
    // No edge.
    (
        &[
            b"",
            b"\n",
            b"\n\n\n",
            b" ",
            b"\t",
            b"   \n \t \n\t\t",
            b"\r",
            b"\r\n",
            b"\r\n\r\n\r\n",
            b" \r\n\t\r\n",
            b"\t\r",
            b" \n\r\n\n \r",
        ],
        NOTHING,
    ),
    // One edge, from a to b at cost 7.
    (
        &[
            b"a b 7\n",
            b"a b 7",
            b"a b 7\r",
            b"a b 7\r\n",
            b"a b 7 ",
            b"a b 7\t\r",
            b"\ta b 7",
            b"a\tb\t7",
            b"\r\n\n a\tb 007 \r\n",
            b"\n\r\na b 7\n\n\n",
            b" \ta \t b\t\t7\t \r\n \t\r\n",
            b"a b 7\n \t",
            b"a b 7\n\r",
            b"a b 0000000000000000000000000000000000000007\n",
        ],
        SEVEN,
    ),
    // Two edges, from a to c at cost 1 and from c to b at cost 2.
    (
        &[
            b"a c 1\nc b 2\n",
            b"a c 1\nc b 2",
            b"a c 1\r\nc b 2\r",
            b"a c 1\n\nc b 2\n\n",
            b"\ta c 01\n \r\n c b 02",
            b"a c 1 \r\n\tc\tb\t2\t\r\n",
        ],
        TWO,
    ),
    // The greatest cost, with leading zeros too, and the least.
    (
        &[
            b"a b 18446744073709551615",
            b"a b 0000000000000000000018446744073709551615\r\n",
        ],
        GREATEST,
    ),
    (
        &[b"a b 0000000000000000000000000000000000000000"],
        &[
            Ok(b"0: a b\n"),
            Ok(b"1: a b\n"),
            Ok(b"a b 0\n"),
            Ok(b"0: a b\n"),
            Ok(b"0: a b\n"),
            Ok(b"0\n"),
        ],
    ),
    // A sum that just fits, one that does not, and costs that are never added.
    (
        &[b"a c 18446744073709551614\nc b 1\n"],
        &[
            Ok(b"18446744073709551615: a c b\n"),
            Ok(b"2: a c b\n"),
            Ok(b"c b 1\na c 18446744073709551614\n"),
            Ok(b"18446744073709551615: a c b\n"),
            Ok(b"18446744073709551615: a c b\n"),
            Ok(b"1\nc b 1\n"),
        ],
    ),
    (
        &[b"a c 18446744073709551615\nc b 1\n"],
        &[
            Err("cost overflow\n"),
            Ok(b"2: a c b\n"),
            Ok(b"c b 1\na c 18446744073709551615\n"),
            Err("cost overflow\n"),
            Err("cost overflow\n"),
            Ok(b"1\nc b 1\n"),
        ],
    ),
    (
        &[b"x y 18446744073709551615\ny z 18446744073709551614\na b 7"],
        &[
            Ok(b"7: a b\n"),
            Ok(b"1: a b\n"),
            Ok(b"a b 7\ny z 18446744073709551614\nx y 18446744073709551615\n"),
            Ok(b"7: a b\n"),
            Ok(b"7: a b\n"),
            Ok(b"7\na b 7\n"),
        ],
    ),
    // Names of signs and digits, which letter case tells apart.
    (
        &[b"! ~ 1\n-1 +1 5\n1 2 3\nA b 8\na B 9\n"],
        &[
            Ok(b"none\n"),
            Ok(b"none\n"),
            Ok(b"! ~ 1\n1 2 3\n-1 +1 5\nA b 8\na B 9\n"),
            Ok(b"none\n"),
            Ok(b"none\n"),
            Ok(b"0\n"),
        ],
    ),
    // A line of one field follows no rule of its own where it has three.
    (
        &[b"none none 4\nline 1: 2\n"],
        &[
            Ok(b"none\n"),
            Ok(b"none\n"),
            Ok(b"line 1: 2\n"),
            Ok(b"none\n"),
            Ok(b"none\n"),
            Ok(b"0\n"),
        ],
    ),
    // Edges from a node to itself, back, and twice the same at other costs.
    (
        &[b"a b 5\na a 0\nb b 0\na b 3\nb a 1\n"],
        &[
            Ok(b"3: a b\n"),
            Ok(b"1: a b\n"),
            Ok(b"b a 1\n"),
            Ok(b"3: a b\n"),
            Ok(b"3: a b\n"),
            Ok(b"3\na b 3\n"),
        ],
    ),
    // The path of fewest edges is not the cheapest.
    (
        &[b"a b 5\na c 1\nc b 2\n"],
        &[
            Ok(b"3: a c b\n"),
            Ok(b"1: a b\n"),
            Ok(b"a c 1\nc b 2\n"),
            Ok(b"3: a c b\n5: a b\n"),
            Ok(b"3: a c b\n5: a b\n"),
            Ok(b"6\na b 5\na c 1\n"),
        ],
    ),
];

/// Lines that are neither an edge nor blank.
const BAD_LINES: &[&[u8]] = &[
    // One, two, four and five fields.
    b"a",
    b" a ",
    b"1",
    b"a b",
    b"a\tb",
    b"a b ",
    b"a b\t",
    b"1 2",
    b"a b 1 x",
    b"a b 1 2",
    b"a b 1\t2",
    b"a b 1 x y",
    b"x a b 1",
    b"1 a b",
    b"a 1 b",
    // Costs that are not digits alone.
    b"a b +1",
    b"a b -1",
    b"a b -0",
    b"a b 1+",
    b"a b 1-",
    b"a b 1.0",
    b"a b 1.",
    b"a b .1",
    b"a b 1e3",
    b"a b 0x1",
    b"a b 1_000",
    b"a b 1,000",
    b"a b 1x",
    b"a b x1",
    b"a b x",
    b"a b /",
    b"a b :",
    b"a b 1/",
    b"a b 1:",
    b"a b inf",
    b"a b \xd9\xa1",
    b"a b \xef\xbc\x91",
    // Costs from 2^64 on.
    b"a b 18446744073709551616",
    b"a b 18446744073709551619",
    b"a b 18446744073709551620",
    b"a b 18446744073709551625",
    b"a b 184467440737095516150",
    b"a b 99999999999999999999",
    b"a b 36893488147419103232",
    b"a b 340282366920938463463374607431768211456",
    b"a b 1000000000000000000000000000000000000000",
    b"a b 9999999999999999999999999999999999999999",
    b"a b 0000000000000000000018446744073709551616",
    // Carriage returns in other places than the end of a line.
    b"\ra b 1",
    b"a\r b 1",
    b"a \rb 1",
    b"a\rb 1",
    b"a b\r1",
    b"a b \r 1",
    b"a b \r1",
    b"a b 1\r ",
    b"a b 1\r\t\r",
    b"a b 1\r\r",
    b"a b 1 \r\r",
    b"\r\r",
    b"\r ",
    b" \r\r",
    // Zero bytes, and marks and spaces of Unicode.
    b"\0",
    b"a b 1\0",
    b"a\0b c 1",
    b"\xef\xbb\xbfa b 1",
    b"a\xc2\xa0b 1",
];

/// A pattern, the byte of which a megabyte stands in the place of its `?`, and what is printed about
/// that text.
type Long<'a> = (&'a [u8], u8, &'a [Printed<'a>]);

const LONG: &[Long<'static>] = &[
    (b"?", b' ', NOTHING),
    (b"?", b'\n', NOTHING),
    (b"?a b 7", b'\t', SEVEN),
    (b"?a b 7\r", b'\n', SEVEN),
    (b"a?b 7\n", b' ', SEVEN),
    (b"a b ?7\n", b'0', SEVEN),
    (b"a b 7?\r\n", b' ', SEVEN),
    (b"a b ?\n", b'9', FIRST_BAD),
    (b"?", b'x', FIRST_BAD),
    (b"a b 7?\n", b'\r', FIRST_BAD),
    (b"a b 7?\na b 7\n", b'\0', FIRST_BAD),
    (b"?a b", b'\n', LATE_BAD),
];

/// The command that words parted by spaces spell, where they spell one and memory is left.
pub fn spelled(alloc: Global, line: &str) -> Option<Command> {
    let mut words = Vec::new(alloc);
    for word in line.split(' ') {
        words.push(String::from_str(alloc, word).ok()?).ok()?;
    }
    command(words)
}

/// The commands that each text is asked, where memory is left.
fn commands(alloc: Global) -> Option<Vec<Command>> {
    let mut commands = Vec::new(alloc);
    for line in COMMANDS {
        commands.push(spelled(alloc, line)?).ok()?;
    }
    Some(commands)
}

/// The text that a pattern spells, in which the filling stands in the place of each `?`, where memory
/// is left.
fn filled(alloc: Global, pattern: &[u8], filling: &[u8]) -> Option<Vec<u8>> {
    let mut text = Vec::new(alloc);
    for byte in pattern {
        if *byte == b'?' {
            text.extend_from_slice(filling).ok()?;
        } else {
            text.push(*byte).ok()?;
        }
    }
    Some(text)
}

/// Whether this line is told of a fault.
fn is_told(alloc: Global, fault: RouteError, line: &str) -> bool {
    let told = format!(in alloc; "{fault}\n");
    matches!(&told, Ok(told) if told.as_str() == line)
}

/// Whether this is printed for a command about a text.
fn prints(alloc: Global, command: &Command, text: &[u8], want: Printed<'_>) -> bool {
    let mut input = Noted::new(text);
    let mut output = Noted::new(Vec::new(alloc));
    let told = run(alloc, command, &mut input, &mut output);
    let written = output.into_inner();
    match (told, want) {
        (Ok(()), Ok(bytes)) => written.as_slice() == bytes,
        (Err(fault), Err(line)) => written.is_empty() && is_told(alloc, fault, line),
        _ => false,
    }
}

/// Whether each command prints what it has to about a text.
fn all_print(alloc: Global, commands: &[Command], text: &[u8], wanted: &[Printed<'_>]) -> bool {
    for (command, want) in commands.iter().zip(wanted) {
        if !prints(alloc, command, text, *want) {
            return false;
        }
    }
    true
}

/// The same about the text that a pattern and its filling spell.
fn all_print_filled(
    alloc: Global,
    commands: &[Command],
    pattern: &[u8],
    filling: &[u8],
    wanted: &[Printed<'_>],
) -> bool {
    match filled(alloc, pattern, filling) {
        Some(text) => all_print(alloc, commands, text.as_slice(), wanted),
        None => false,
    }
}

#[test]
fn good_texts_are_answered(rt: HostRuntime) {
    let commands = commands(rt.alloc()).expect(&rt, "commands");
    for (texts, wanted) in GOOD {
        for text in *texts {
            assert!(rt; all_print(rt.alloc(), &commands, text, wanted), "{text:?}");
        }
    }
}

/// A bad line is told by its number, blank lines counted, wherever it stands: alone, and behind edges
/// whose costs do not fit and before another bad line.
#[test]
fn the_first_bad_line_is_told(rt: HostRuntime) {
    let alloc = rt.alloc();
    let commands = commands(alloc).expect(&rt, "commands");
    let within = b"a c 18446744073709551615\n\r\nc b 1\n?\nx\n";
    for line in BAD_LINES {
        assert!(rt;
            all_print(alloc, &commands, line, FIRST_BAD)
                && all_print_filled(alloc, &commands, within, line, FOURTH_BAD),
            "{line:?}"
        );
    }
}

/// What is printed about an edge from a to b at cost 7 behind a line that is good or bad.
fn wanted_behind(is_good: bool) -> &'static [Printed<'static>] {
    if is_good { SEVEN } else { FIRST_BAD }
}

/// Whether a byte is of its kind in the names of an edge from a node to itself, behind the digits of
/// its cost, and alone on a line: where the line is good, it changes no answer about the edge on the
/// next line.
fn is_of_its_kind(alloc: Global, commands: &[Command], byte: u8) -> bool {
    let is_gap = byte == b' ' || byte == b'\t';
    let is_blank = is_gap || byte == b'\r' || byte == b'\n';
    let named = wanted_behind(is_gap || (b'!'..=b'~').contains(&byte));
    let priced = wanted_behind(is_blank || byte.is_ascii_digit());
    let alone = wanted_behind(is_blank);
    let filling = [byte];
    all_print_filled(alloc, commands, b"a? a? 7\na b 7", &filling, named)
        && all_print_filled(alloc, commands, b"a a 7?\na b 7", &filling, priced)
        && all_print_filled(alloc, commands, b"?\na b 7", &filling, alone)
}

#[test]
fn each_byte_is_of_its_kind(rt: HostRuntime) {
    let commands = commands(rt.alloc()).expect(&rt, "commands");
    for byte in 0..=u8::MAX {
        assert!(rt; is_of_its_kind(rt.alloc(), &commands, byte), "{byte}");
    }
}

/// A megabyte of one byte, where memory is left.
fn megabyte_of(alloc: Global, byte: u8) -> Option<Vec<u8>> {
    vec![in alloc; byte; 1_048_576].ok()
}

#[test]
fn lines_of_a_megabyte_are_read(rt: HostRuntime) {
    let commands = commands(rt.alloc()).expect(&rt, "commands");
    for (pattern, byte, wanted) in LONG {
        let filling = megabyte_of(rt.alloc(), *byte).expect(&rt, "memory");
        assert!(rt;
            all_print_filled(rt.alloc(), &commands, pattern, &filling, wanted),
            "{pattern:?}"
        );
    }
}

/// Whether the text of an edge with a long name, which a pattern spells, is the answer to itself.
fn comes_back(alloc: Global, command: &Command, pattern: &[u8], name: &[u8]) -> bool {
    match filled(alloc, pattern, name) {
        Some(text) => prints(alloc, command, text.as_slice(), Ok(text.as_slice())),
        None => false,
    }
}

#[test]
fn a_name_of_a_megabyte_comes_back_whole(rt: HostRuntime) {
    let spanning = spelled(rt.alloc(), "kruskal").expect(&rt, "a command");
    let name = megabyte_of(rt.alloc(), b'x').expect(&rt, "memory");
    assert!(rt; comes_back(rt.alloc(), &spanning, b"? b 1\n", &name));
    assert!(rt; comes_back(rt.alloc(), &spanning, b"a ? 1\n", &name));
}
