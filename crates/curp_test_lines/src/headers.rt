// Headers of clients that aren't fast, which no word prints, and a reader that goes on behind lines that it refused.
ghost use Rattle.curp_msg.specs.Script.{IsHeader};

use crate::steps::reads_step;
use curp_print::print_header;
use curp_script::{Header, LineReader, Protocol, Step};
use std::alloc::Global;
use std::process::Abort;

const FIRST: Header = Header {
    clients: 2,
    f: 1,
    fast: false,
    parts: 1,
    protocol: Protocol::One,
    sets: 16,
    ways: 4,
};

const SECOND: Header = Header {
    clients: 2,
    f: 1,
    fast: false,
    parts: 1,
    protocol: Protocol::Two,
    sets: 16,
    ways: 4,
};

/// Whether that header is read of the line.
fn reads_header(reader: &mut LineReader, line: &str, header: &Header) -> bool {
    match reader.parse_header(line.as_bytes()) {
        Ok(found) => found == *header,
        Err(_) => false,
    }
}

fn is_printed(alloc: Global, header: &Header, line: &str) -> bool
    requires { IsHeader header.now }
{
    match print_header(alloc, header) {
        Ok(text) => text.as_slice() == line.as_bytes(),
        Err(_) => false,
    }
}

#[test]
fn headers_that_are_not_fast_are_read_and_printed(rt: HostRuntime) {
    let mut reader = LineReader::new(rt.alloc());
    let line = r#"{"clients":2,"f":1,"fast":false,"parts":1,"protocol":1,"sets":16,"ways":4}"#;
    assert!(rt; reads_header(&mut reader, line, &FIRST));
    assert!(rt; is_printed(rt.alloc(), &FIRST, line));
    let mut reader = LineReader::new(rt.alloc());
    let line = r#"{"clients":2,"f":1,"fast":false,"parts":1,"protocol":2,"sets":16,"ways":4}"#;
    assert!(rt; reads_header(&mut reader, line, &SECOND));
    assert!(rt; is_printed(rt.alloc(), &SECOND, line));
}

/// A line of a delivery of so many bytes, filled up by blanks.
fn longest(rt: &impl Abort, alloc: Global) -> String {
    let blanks = " ".repeat(alloc, 65_512).expect(rt, "no memory");
    let line = format!(in alloc; "{{{blanks}\"do\":\"deliver\",\"msg\":1}}");
    line.expect(rt, "no memory")
}

/// A line with a list of so many levels.
fn nested(rt: &impl Abort, alloc: Global, levels: usize) -> String {
    let opens = "[".repeat(alloc, levels).expect(rt, "no memory");
    let closes = "]".repeat(alloc, levels).expect(rt, "no memory");
    let line = format!(in alloc; "{{\"do\":\"deliver\",\"msg\":1,\"x\":{opens}{closes}}}");
    line.expect(rt, "no memory")
}

const DELIVERY: Step = Step::Deliver { message: 1 };

// JSON is read up to 127 levels, with that of the line itself.
#[test]
fn a_reader_goes_on_behind_lines_that_it_refused(rt: HostRuntime) {
    let mut reader = LineReader::new(rt.alloc());
    let line = longest(&rt, rt.alloc());
    assert!(rt; line.len() == 65_536);
    assert!(rt; reads_step(&mut reader, &line, &DELIVERY));
    let deep = nested(&rt, rt.alloc(), 127);
    assert!(rt; !reads_step(&mut reader, &deep, &DELIVERY));
    assert!(rt; reads_step(&mut reader, &line, &DELIVERY));
}
