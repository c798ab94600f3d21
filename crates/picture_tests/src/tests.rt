//! Pictures of texts, and texts that are refused.

ghost use Rattle.std.specs.Prelude.{◌≤◌};

use heap_picture::run;
use outside::{Failed, MemSink, MemSources, OpenFault, Sources};
use std::alloc::{AllocError, Global};
use std::test::Fail;

// The command line, the lines of the text, and the bars of the picture, with the cells before them.
const PICTURES: [(&str, &str, &str); 11] = [
    (
        "a",
        "mutator 1;new 1.1;new 1.2;new 1.3;full;ref 2.1;mutator 2;new 2.1;range;ref 1.2;\
        plan gencopy;blocks 5;mutators 2;commands 8;full 1;collections nursery 4 full 3;\
        live objects 3 words 2060;held objects 5 words 2069;\
        kinds free 2 bump 0 young 1 mature 1 immix 0 cells 0 large 1 kept 0;\
        map 1.2 block 2 word 0 size 2049;map 1.3 block 3 word 16 size 7;\
        map 2.1 block 0 word 5 size 4",
        "<path class=\"f\" d=\"M0 0h256v16h-256z\"/>\n<path class=\"f\" d=\"M256 0h256v16h-256z\"/\
        >\n<path class=\"f\" d=\"M512 0h256v16h-256z\"/>\n<path class=\"f\" d=\"M768 0h256v16h-256\
        z\"/>\n<path class=\"f\" d=\"M1024 0h256v16h-256z\"/>\n<path class=\"l\" d=\"M512 0h256v1h\
        -256zM512 1h256v7h-256zM512 8h1v1h-1z\"><title>1.2 2049 words</title></path>\n<path class=\
        \"s\" d=\"M784 0h7v1h-7z\"><title>1.3 7 words</title></path>\n<path class=\"s\" d=\"M5 0h4\
        v1h-4z\"><title>2.1 4 words</title></path>\n</g></svg>\n",
    ),
    (
        "--names 2 a",
        "mutator 1;new 1.1;new 1.2;new 1.3;full;ok;mutator 2;new 2.1;range;ref 1.2;plan gencopy;bl\
        ocks 5;mutators 2;commands 8;full 1;collections nursery 4 full 3;live objects 3 words 2060\
        ;held objects 5 words 2069;kinds free 2 bump 0 young 1 mature 1 immix 0 cells 0 large 1 ke\
        pt 0;map 1.2 block 2 word 0 size 2049;map 1.3 block 3 word 16 size 7;map 2.1 block 0 word \
        5 size 4",
        "<path class=\"f\" d=\"M0 0h256v16h-256z\"/>\n<path class=\"f\" d=\"M256 0h256v16h-256z\"/\
        >\n<path class=\"f\" d=\"M512 0h256v16h-256z\"/>\n<path class=\"f\" d=\"M768 0h256v16h-256\
        z\"/>\n<path class=\"f\" d=\"M1024 0h256v16h-256z\"/>\n<path class=\"l\" d=\"M512 0h256v1h\
        -256zM512 1h256v7h-256zM512 8h1v1h-1z\"><title>1.2 2049 words</title></path>\n<path class=\
        \"s\" d=\"M784 0h7v1h-7z\"><title>1.3 7 words</title></path>\n<path class=\"n\" d=\"M5 0h4\
        v1h-4z\"><title>2.1 4 words</title></path>\n</g></svg>\n",
    ),
    (
        "a",
        "mutator 1;ok;plan nogc;blocks 4;mutators 1;commands 1;full 0;collections nursery 0 full 0\
        ;live objects 0 words 0;held objects 0 words 0;kinds free 4 bump 0 young 0 mature 0 immix \
        0 cells 0 large 0 kept 0",
        "<path class=\"f\" d=\"M0 0h256v16h-256z\"/>\n<path class=\"f\" d=\"M256 0h256v16h-256z\"/\
        >\n<path class=\"f\" d=\"M512 0h256v16h-256z\"/>\n<path class=\"f\" d=\"M768 0h256v16h-256\
        z\"/>\n</g></svg>\n",
    ),
    (
        "a",
        "mutator 1;new 1.1;new 1.2;new 1.3;new 1.4;plan immix;blocks 18;mutators 1;commands 4;ful\
        l 0;collections nursery 0 full 0;live objects 4 words 15354;held objects 4 words 15354;kin\
        ds free 12 bump 0 young 0 mature 0 immix 2 cells 0 large 4 kept 0;map 1.1 block 0 word 25\
        0 size 6;map 1.2 block 0 word 256 size 700;map 1.3 block 1 word 2048 size 2048;map 1.4 blo\
        ck 14 word 0 size 12600",
        "<path class=\"f\" d=\"M0 0h256v16h-256z\"/>\n<path class=\"f\" d=\"M256 0h256v16h-256z\"/\
        >\n<path class=\"f\" d=\"M512 0h256v16h-256z\"/>\n<path class=\"f\" d=\"M768 0h256v16h-256\
        z\"/>\n<path class=\"f\" d=\"M1024 0h256v16h-256z\"/>\n<path class=\"f\" d=\"M1280 0h256v1\
        6h-256z\"/>\n<path class=\"f\" d=\"M1536 0h256v16h-256z\"/>\n<path class=\"f\" d=\"M1792 0\
        h256v16h-256z\"/>\n<path class=\"f\" d=\"M2048 0h256v16h-256z\"/>\n<path class=\"f\" d=\"M\
        2304 0h256v16h-256z\"/>\n<path class=\"f\" d=\"M2560 0h256v16h-256z\"/>\n<path class=\"f\
        \" d=\"M2816 0h256v16h-256z\"/>\n<path class=\"f\" d=\"M3072 0h256v16h-256z\"/>\n<path cla\
        ss=\"f\" d=\"M3328 0h256v16h-256z\"/>\n<path class=\"f\" d=\"M3584 0h256v16h-256z\"/>\n<pa\
        th class=\"f\" d=\"M3840 0h256v16h-256z\"/>\n<path class=\"f\" d=\"M0 16h256v16h-256z\"/>\
        \n<path class=\"f\" d=\"M256 16h256v16h-256z\"/>\n<path class=\"i\" d=\"M250 0h6v1h-6z\"><\
        title>1.1 6 words</title></path>\n<path class=\"i\" d=\"M0 1h256v1h-256zM0 2h256v1h-256zM\
        0 3h188v1h-188z\"><title>1.2 700 words</title></path>\n<path class=\"i\" d=\"M256 8h256v1h\
        -256zM256 9h256v7h-256z\"><title>1.3 2048 words</title></path>\n<path class=\"l\" d=\"M358\
        4 0h512v16h-512zM0 16h256v16h-256zM256 16h256v1h-256zM256 17h56v1h-56z\"><title>1.4 12600 \
        words</title></path>\n</g></svg>\n",
    ),
    (
        "a",
        "mutator 1;new 1.1;new 1.2;plan marksweep;blocks 16;mutators 1;commands 2;full 0;collectio\
        ns nursery 0 full 0;live objects 2 words 63076;held objects 2 words 63076;kinds free 0 bum\
        p 0 young 0 mature 0 immix 0 cells 0 large 16 kept 0;map 1.1 block 0 word 0 size 61027;ma\
        p 1.2 block 15 word 0 size 2049",
        "<path class=\"f\" d=\"M0 0h256v16h-256z\"/>\n<path class=\"f\" d=\"M256 0h256v16h-256z\"/\
        >\n<path class=\"f\" d=\"M512 0h256v16h-256z\"/>\n<path class=\"f\" d=\"M768 0h256v16h-256\
        z\"/>\n<path class=\"f\" d=\"M1024 0h256v16h-256z\"/>\n<path class=\"f\" d=\"M1280 0h256v1\
        6h-256z\"/>\n<path class=\"f\" d=\"M1536 0h256v16h-256z\"/>\n<path class=\"f\" d=\"M1792 0\
        h256v16h-256z\"/>\n<path class=\"f\" d=\"M2048 0h256v16h-256z\"/>\n<path class=\"f\" d=\"M\
        2304 0h256v16h-256z\"/>\n<path class=\"f\" d=\"M2560 0h256v16h-256z\"/>\n<path class=\"f\
        \" d=\"M2816 0h256v16h-256z\"/>\n<path class=\"f\" d=\"M3072 0h256v16h-256z\"/>\n<path cla\
        ss=\"f\" d=\"M3328 0h256v16h-256z\"/>\n<path class=\"f\" d=\"M3584 0h256v16h-256z\"/>\n<pa\
        th class=\"f\" d=\"M3840 0h256v16h-256z\"/>\n<path class=\"l\" d=\"M0 0h3584v16h-3584zM358\
        4 0h256v1h-256zM3584 1h256v13h-256zM3584 14h99v1h-99z\"><title>1.1 61027 words</title></pa\
        th>\n<path class=\"l\" d=\"M3840 0h256v1h-256zM3840 1h256v7h-256zM3840 8h1v1h-1z\"><title>\
        1.2 2049 words</title></path>\n</g></svg>\n",
    ),
    (
        "a",
        "mutator 1;new 1.1;new 1.2;new 1.3;new 1.4;plan gencopy;blocks 6;mutators 1;commands 4;ful\
        l 0;collections nursery 1 full 1;live objects 4 words 4111;held objects 4 words 4111;kinds \
        free 1 bump 0 young 1 mature 1 immix 0 cells 0 large 2 kept 1;map 1.1 block 5 word 0 size \
        7;map 1.2 block 4 word 16 size 4;map 1.3 block 3 word 0 size 3;map 1.4 block 1 word 0 size \
        4097",
        "<path class=\"f\" d=\"M0 0h256v16h-256z\"/>\n<path class=\"f\" d=\"M256 0h256v16h-256z\"/\
        >\n<path class=\"f\" d=\"M512 0h256v16h-256z\"/>\n<path class=\"f\" d=\"M768 0h256v16h-256\
        z\"/>\n<path class=\"f\" d=\"M1024 0h256v16h-256z\"/>\n<path class=\"f\" d=\"M1280 0h256v1\
        6h-256z\"/>\n<path class=\"s\" d=\"M1280 0h7v1h-7z\"><title>1.1 7 words</title></path>\n<p\
        ath class=\"s\" d=\"M1040 0h4v1h-4z\"><title>1.2 4 words</title></path>\n<path class=\"s\" \
        d=\"M768 0h3v1h-3z\"><title>1.3 3 words</title></path>\n<path class=\"l\" d=\"M256 0h256v1\
        6h-256zM512 0h1v1h-1z\"><title>1.4 4097 words</title></path>\n</g></svg>\n",
    ),
    (
        "a",
        "mutator 1;new 1.1;plan nogc;blocks 4;mutators 1;commands 1;full 0;collections nursery 0 f\
        ull 0;live objects 1 words 4;held objects 1 words 4;kinds free 3 bump 1 young 0 mature 0 i\
        mmix 0 cells 0 large 0 kept 0;map 1.1 block 0 word 0 size 4",
        "<path class=\"f\" d=\"M0 0h256v16h-256z\"/>\n<path class=\"f\" d=\"M256 0h256v16h-256z\"/\
        >\n<path class=\"f\" d=\"M512 0h256v16h-256z\"/>\n<path class=\"f\" d=\"M768 0h256v16h-256\
        z\"/>\n<path class=\"b\" d=\"M0 0h4v1h-4z\"><title>1.1 4 words</title></path>\n</g></svg>\
        \n",
    ),
    // Two objects, of which the first is pinned, and the same after a collection.
    (
        "a",
        "mutator 1;new 1.1;new 1.2;yes;no;plan semispace;blocks 4;mutators 1;commands 4;full 0;col\
        lections nursery 0 full 0;live objects 2 words 8;held objects 2 words 8;kinds free 3 bump \
        1 young 0 mature 0 immix 0 cells 0 large 0 kept 0;map 1.1 block 0 word 0 size 4;map 1.2 bl\
        ock 0 word 4 size 4",
        "<path class=\"f\" d=\"M0 0h256v16h-256z\"/>\n<path class=\"f\" d=\"M256 0h256v16h-256z\"/\
        >\n<path class=\"f\" d=\"M512 0h256v16h-256z\"/>\n<path class=\"f\" d=\"M768 0h256v16h-256\
        z\"/>\n<path class=\"b\" d=\"M0 0h4v1h-4z\"><title>1.1 4 words</title></path>\n<path class\
        =\"b\" d=\"M4 0h4v1h-4z\"><title>1.2 4 words</title></path>\n</g></svg>\n",
    ),
    (
        "a",
        "mutator 1;new 1.1;new 1.2;yes;no;ok;plan semispace;blocks 4;mutators 1;commands 5;full 0;\
        collections nursery 0 full 1;live objects 2 words 8;held objects 2 words 8;kinds free 2 bu\
        mp 1 young 0 mature 0 immix 0 cells 0 large 0 kept 1;map 1.1 block 0 word 0 size 4;map 1.2 \
        block 1 word 0 size 4",
        "<path class=\"f\" d=\"M0 0h256v16h-256z\"/>\n<path class=\"f\" d=\"M256 0h256v16h-256z\"/\
        >\n<path class=\"f\" d=\"M512 0h256v16h-256z\"/>\n<path class=\"f\" d=\"M768 0h256v16h-256\
        z\"/>\n<path class=\"s\" d=\"M0 0h4v1h-4z\"><title>1.1 4 words</title></path>\n<path class\
        =\"s\" d=\"M256 0h4v1h-4z\"><title>1.2 4 words</title></path>\n</g></svg>\n",
    ),
    (
        "a",
        "mutator 1;new 1.1;new 1.2;yes;no;plan immix;blocks 4;mutators 1;commands 4;full 0;collect\
        ions nursery 0 full 0;live objects 2 words 8;held objects 2 words 8;kinds free 3 bump 0 yo\
        ung 0 mature 0 immix 1 cells 0 large 0 kept 0;map 1.1 block 0 word 0 size 4;map 1.2 block \
        0 word 4 size 4",
        "<path class=\"f\" d=\"M0 0h256v16h-256z\"/>\n<path class=\"f\" d=\"M256 0h256v16h-256z\"/\
        >\n<path class=\"f\" d=\"M512 0h256v16h-256z\"/>\n<path class=\"f\" d=\"M768 0h256v16h-256\
        z\"/>\n<path class=\"i\" d=\"M0 0h4v1h-4z\"><title>1.1 4 words</title></path>\n<path class\
        =\"i\" d=\"M4 0h4v1h-4z\"><title>1.2 4 words</title></path>\n</g></svg>\n",
    ),
    (
        "a",
        "mutator 1;new 1.1;new 1.2;yes;no;ok;plan immix;blocks 4;mutators 1;commands 5;full 0;coll\
        ections nursery 0 full 1;live objects 2 words 8;held objects 2 words 8;kinds free 2 bump 0 \
        young 0 mature 0 immix 2 cells 0 large 0 kept 0;map 1.1 block 0 word 0 size 4;map 1.2 bloc\
        k 1 word 0 size 4",
        "<path class=\"f\" d=\"M0 0h256v16h-256z\"/>\n<path class=\"f\" d=\"M256 0h256v16h-256z\"/\
        >\n<path class=\"f\" d=\"M512 0h256v16h-256z\"/>\n<path class=\"f\" d=\"M768 0h256v16h-256\
        z\"/>\n<path class=\"i\" d=\"M0 0h4v1h-4z\"><title>1.1 4 words</title></path>\n<path class\
        =\"i\" d=\"M256 0h4v1h-4z\"><title>1.2 4 words</title></path>\n</g></svg>\n",
    ),
];

// Lines of a run's text.
const GOOD: &str =
    "mutator 1;new 1.1;new 1.2;plan immix;blocks 6;mutators 1;commands 2;full 0;collections nu\
    rsery 0 full 0;live objects 2 words 4105;held objects 3 words 4109;kinds free 3 bump 0 you\
    ng 0 mature 0 immix 1 cells 0 large 2 kept 0;map 1.1 block 0 word 8 size 5;map 1.2 block \
    1 word 0 size 4100";

// A line of `GOOD`, what stands in its place, and the first line that is not so then.
const FAULTS: [(usize, &str, u32); 67] = [
    (1, "mutator 2", 1),
    (1, "mutator 1 ", 1),
    (2, "new 01.1", 2),
    (2, "plan immix ", 2),
    (2, "new 2.1", 2),
    (2, "new 1.2", 2),
    (3, "okay", 3),
    (3, "new 1.1", 3),
    (3, "new 1.3", 3),
    (3, "ok;mutator 3", 4),
    (2, "ref 1.1;new 1.1", 2),
    (3, "ref 1.2", 3),
    (3, "ref 1.0", 3),
    (3, "ref 0.1", 3),
    (3, "ref 17.1", 3),
    (4, "mutator 2;ref 1.3", 5),
    (4, "ref 2.1;plan immix", 5),
    (4, "ref 2.1;mutator 2;plan immix", 6),
    (4, "ref 2.1;mutator 2;new 2.1;ref 2.2", 7),
    (4, "ref 2.2;mutator 2;new 2.1;mutator 3", 7),
    (4, "plan lisp2", 4),
    (5, "blocks 3", 5),
    (5, "blocks 1025", 5),
    (6, "mutators 2", 6),
    (7, "commands 3", 7),
    (8, "full 1", 8),
    (9, "collections nursery 0", 9),
    (9, "collections nursery 1 full 1", 9),
    (9, "collections nursery 0 full 3", 9),
    (
        4,
        "plan gencopy;blocks 6;mutators 1;commands 2;full 0;collections nursery 1 full 0",
        9,
    ),
    (
        4,
        "plan gencopy;blocks 6;mutators 1;commands 2;full 0;collections nursery 3 full 1",
        9,
    ),
    (
        3,
        "full;plan immix;blocks 6;mutators 1;commands 2;full 1;collections nursery 0 full 0",
        9,
    ),
    (10, "live objects 18446744073709551616 words 4105", 10),
    (10, "live objects 2 words 5", 10),
    (10, "live objects 2 words 122055", 10),
    (11, "held objects 1 words 4105", 11),
    (11, "held objects 2 words 4104", 11),
    (11, "held objects 3 words 4107", 11),
    (11, "held objects 3 words 65133", 11),
    (11, "held objects 3 words 24577", 11),
    (11, "held objects 3 words 12289", 12),
    (11, "held objects 3 words 6154", 14),
    (
        11,
        "held objects 2 words 4105;kinds free 2 bump 0 young 0 mature 0 immix 2 cells 0 large 2 ke\
        pt 0",
        12,
    ),
    (
        12,
        "kinds free 1 bump 0 young 0 mature 0 immix 3 cells 0 large 2 kept 0",
        12,
    ),
    (
        12,
        "kinds free 2 bump 0 young 0 mature 0 immix 1 cells 0 large 3 kept 0",
        12,
    ),
    (
        12,
        "kinds free 3 bump 0 young 0 mature 0 immix 1 cells 0 large 2 kept 0 ",
        12,
    ),
    (
        12,
        "kinds free 4 bump 0 young 0 mature 0 immix 1 cells 0 large 2 kept 0",
        12,
    ),
    (
        12,
        "kinds free 3 bump 0 young 0 mature 0 immix 1 cells 0 large 2 kept 18446744073709551615",
        12,
    ),
    (
        12,
        "kinds free 3 bump 1 young 0 mature 0 immix 0 cells 0 large 2 kept 0",
        12,
    ),
    (
        12,
        "kinds free 3 bump 0 young 0 mature 0 immix 2 cells 0 large 1 kept 0",
        14,
    ),
    (
        12,
        "kinds free 4 bump 0 young 0 mature 0 immix 0 cells 0 large 2 kept 0",
        13,
    ),
    (13, "map 1.1 block 6 word 8 size 5", 13),
    (13, "map 1.1 block 0 word 4092 size 5", 13),
    (13, "map 1.0 block 0 word 8 size 5", 13),
    (13, "map 2.1 block 0 word 8 size 5", 13),
    (13, "map 1.3 block 0 word 8 size 5", 13),
    (13, "map 1.1 block 0 word 8 size 2", 13),
    (13, "map 1.1 block 1 word 0 size 4103", 13),
    (13, "map 1.1 block 2 word 4 size 5", 14),
    (14, "map 1.1 block 1 word 0 size 4100", 14),
    (14, "map 1.2 block 1 word 1 size 4100", 14),
    (14, "map 1.2 block 5 word 0 size 4100", 14),
    (14, "map 1.2 block 0 word 0 size 4100", 14),
    (14, "map 1.2 block 1 word 0 size 4099", 14),
    (14, "map 1.2 block 1 word 0 size 4101", 14),
    (14, "map 1.2 block 1 word 0 size 4100;", 15),
    (
        14,
        "map 1.2 block 1 word 0 size 4100;map 1.3 block 5 word 0 size 5",
        15,
    ),
];

// Texts that end too early, and the number of the line that is missing.
const ENDS: [(&str, u32); 2] = [("", 1), ("mutator 1;new 1.1;ok", 4)];

// The text of these lines.
fn text_in(alloc: Global, lines: &str) -> Result<Vec<u8>, AllocError> {
    let mut text = Vec::new(alloc);
    for line in lines.split(';') {
        text.extend_from_slice(line.as_bytes())?;
        text.push(b'\n')?;
    }
    Ok(text)
}

// The text of `GOOD` with one line replaced.
fn text_with(alloc: Global, place: usize, new: &str) -> Result<Vec<u8>, AllocError> {
    let mut text = Vec::new(alloc);
    for (k, old) in GOOD.split(';').enumerate() {
        let lines = if k.saturating_add(1) == place {
            new
        } else {
            old
        };
        text.extend_from_slice(&text_in(alloc, lines)?)?;
    }
    Ok(text)
}

// The exit number of a run with these arguments over file `a`, the picture without what stands
// before its cells, and what was written to standard error, with bars between them.
fn run_line(alloc: Global, line: &str, text: Vec<u8>) -> Result<Vec<u8>, AllocError> {
    run_into(alloc, line, text, 8_000_000)
}

// The same, of a run whose output takes so many bytes.
fn run_into(alloc: Global, line: &str, text: Vec<u8>, room: usize) -> Result<Vec<u8>, AllocError> {
    let mut words = Vec::new(alloc);
    for word in line.split(' ') {
        words.push(String::from_str(alloc, word)?)?;
    }
    let mut files = Vec::new(alloc);
    files.push((String::from_str(alloc, "a")?, text))?;
    let mut sources = MemSources::new(files, Vec::new(alloc));
    let mut out = MemSink::new(alloc, room, 65_536, Vec::new(alloc))?;
    let mut err = MemSink::new(alloc, 1000, 1000, Vec::new(alloc))?;
    let number = run(alloc, &words, &mut sources, &mut out, &mut err).number();
    let drawn = str::from_utf8(out.bytes()).unwrap_or("");
    let cells = match drawn.split_once("scale(.25 4)\">\n") {
        Some((_, cells)) => cells,
        None => drawn,
    };
    let said = str::from_utf8(err.bytes()).unwrap_or("");
    Ok(format!(in alloc; "{number}|{cells}|{said}")?.into_bytes())
}

// Each text has these cells and bars.
#[test]
fn pictures(rt: HostRuntime) -> Result<(), Fail> {
    let alloc = rt.alloc();
    for (line, lines, want) in PICTURES {
        let ran = run_line(alloc, line, text_in(alloc, lines)?)?;
        let wanted = format!(in alloc; "0|{want}|")?;
        assert!(rt; ran.as_slice() == wanted.as_bytes(), "{lines}");
    }
    Ok(())
}

// The line that a run over the text names.
fn run_refused(alloc: Global, text: Vec<u8>, number: u32) -> Result<bool, AllocError> {
    let ran = run_line(alloc, "a", text)?;
    let wanted = format!(in alloc;
        "5||heap_view: a: line {number} is not of the text of a run with a map\n"
    )?;
    Ok(ran.as_slice() == wanted.as_bytes())
}

// Each fault is found at its line.
#[test]
fn refused(rt: HostRuntime) -> Result<(), Fail> {
    let alloc = rt.alloc();
    assert!(rt; run_line(alloc, "a", text_with(alloc, 0, "")?)?.starts_with(b"0|<path"));
    for (place, new, number) in FAULTS {
        assert!(rt;
            run_refused(alloc, text_with(alloc, place, new)?, number)?,
            "{new}"
        );
    }
    for (lines, number) in ENDS {
        assert!(rt;
            run_refused(alloc, text_in(alloc, lines)?, number)?,
            "{lines}"
        );
    }
    Ok(())
}

// The other statuses, and texts that do not end with a newline.
#[test]
fn faults(rt: HostRuntime) -> Result<(), Fail> {
    let alloc = rt.alloc();
    let usage = b"2||heap_view: usage: heap_view [--names M] FILE\n";
    for line in [
        "",
        "-",
        "--names 1",
        "--names 0 a",
        "--names 17 a",
        "--name 1 a",
        "a b",
    ] {
        let ran = run_line(alloc, line, Vec::new(alloc))?;
        assert!(rt; ran.as_slice() == usage.as_slice(), "{line}");
    }
    let unread = run_line(alloc, "b", Vec::new(alloc))?;
    assert!(rt; unread.as_slice() == b"3||heap_view: cannot read b\n".as_slice());
    let mut text = text_in(alloc, PICTURES[0].1)?;
    text.pop();
    let cut = run_line(alloc, "a", text)?;
    let line = b"5||heap_view: a: line 22 is not of the text of a run with a map\n";
    assert!(rt; cut.as_slice() == line.as_slice());
    let full = run_into(alloc, "a", text_in(alloc, PICTURES[0].1)?, 5)?;
    assert!(rt; full.as_slice() == b"6|<svg |heap_view: write failed\n".as_slice());
    Ok(())
}

// The text of a run whose map has so many objects of three words, in cells of four.
fn text_of_many(alloc: Global, objects: u32) -> Result<Vec<u8>, AllocError>
    requires { objects ≤ 200000 }
{
    let words = 3 * objects;
    let used = (objects + 1023) / 1024;
    let free = 1024 - used;
    let mut text = Vec::from_slice(alloc, b"mutator 1\n")?;
    for k in 0..objects {
        let line = format!(in alloc; "new 1.{}\n", k + 1)?;
        text.extend_from_slice(line.as_bytes())?;
    }
    let report = format!(in alloc;
        "plan marksweep\nblocks 1024\nmutators 1\ncommands {objects}\nfull 0\n\
        collections nursery 0 full 0\nlive objects {objects} words {words}\n\
        held objects {objects} words {words}\nkinds free {free} bump 0 young 0 mature 0 \
        immix 0 cells {used} large 0 kept 0\n"
    )?;
    text.extend_from_slice(report.as_bytes())?;
    for k in 0..objects {
        let (birth, block, word) = (k + 1, k / 1024, k % 1024 * 4);
        let line = format!(in alloc; "map 1.{birth} block {block} word {word} size 3\n")?;
        text.extend_from_slice(line.as_bytes())?;
    }
    Ok(text)
}

// Each of 20,000 objects has a bar, of at most 200 bytes.
#[test]
fn many(rt: HostRuntime) -> Result<(), Fail> {
    let alloc = rt.alloc();
    let ran = run_line(alloc, "a", text_of_many(alloc, 20_000)?)?;
    let drawn = str::from_utf8(&ran).unwrap_or("");
    let cells = drawn.matches("class=\"f\"").count();
    let bars = drawn.matches("<path class=\"c\" d=\"M").count();
    assert!(rt; (cells, bars) == (1024, 20_000));
    assert!(rt; drawn.starts_with("0|<path class=\"f\"") && drawn.ends_with("</g></svg>\n|"));
    assert!(rt; ran.len() < 60_000 + 200 * 20_000);
    Ok(())
}

// The text of a run with so many replies of one mutator, without a map.
fn text_of_replies(alloc: Global, replies: u32) -> Result<Vec<u8>, AllocError> {
    let mut text = Vec::from_slice(alloc, b"mutator 1\n")?;
    for _ in 0..replies {
        text.extend_from_slice(b"ok\n")?;
    }
    let report = format!(in alloc;
        "plan nogc;blocks 4;mutators 1;commands {replies};full 0;collections nursery 0 full 0;\
        live objects 0 words 0;held objects 0 words 0;kinds free 4 bump 0 young 0 mature 0 immix \
        0 cells 0 large 0 kept 0"
    )?;
    text.extend_from_slice(&text_in(alloc, &report)?)?;
    Ok(text)
}

// A mutator has 1,000,000 replies at most.
#[test]
fn replies(rt: HostRuntime) -> Result<(), Fail> {
    let alloc = rt.alloc();
    let most = run_line(alloc, "a", text_of_replies(alloc, 1_000_000)?)?;
    assert!(rt; most.starts_with(b"0|<path"));
    assert!(rt; run_refused(alloc, text_of_replies(alloc, 1_000_001)?, 1_000_002)?);
    Ok(())
}

// Files that never end.
#[derive(Drop)]
struct Endless<S: Sources> {
    files: S,
    is_open: bool,
}

impl<S: Sources> Sources for Endless<S> {
    ghost use Rattle.std.specs.Prelude.{[], None, Some, if◌then◌else◌};

    ghost state = { λ s. record {
      content = λ _. None;
      left = if s.is_open then None else Some [];
      asked = (S.state s.files).asked;
      faults = (S.state s.files).faults;
    } };

    fn open_file(&mut self, name: &str) -> Result<(), OpenFault> {
        self.is_open = false;
        self.files.open_file(name)?;
        self.is_open = true;
        Ok(())
    }

    fn read(&mut self, buf: &mut [u8]) -> Result<usize, Failed> {
        if self.is_open { Ok(buf.len()) } else { Ok(0) }
    }
}

// A text of more than 500,000,000 bytes is not read.
#[test]
fn too_long(rt: HostRuntime) -> Result<(), Fail> {
    let alloc = rt.alloc();
    let mut words = Vec::new(alloc);
    words.push(String::from_str(alloc, "a")?)?;
    let mut files = Vec::new(alloc);
    files.push((String::from_str(alloc, "a")?, Vec::new(alloc)))?;
    let mut sources = Endless {
        files: MemSources::new(files, Vec::new(alloc)),
        is_open: false,
    };
    let mut out = MemSink::new(alloc, 0, 1, Vec::new(alloc))?;
    let mut err = MemSink::new(alloc, 1000, 1000, Vec::new(alloc))?;
    let number = run(alloc, &words, &mut sources, &mut out, &mut err).number();
    let line = b"heap_view: a is longer than 500000000 bytes\n";
    assert!(rt; number == 4 && out.bytes().is_empty() && err.bytes() == line.as_slice());
    Ok(())
}

// A text of more than 16 MiB is read.
#[test]
fn long_text(rt: HostRuntime) -> Result<(), Fail> {
    let alloc = rt.alloc();
    let mut text = Vec::from_slice(alloc, b"mutator 1\n")?;
    for _ in 0..700_000 {
        text.extend_from_slice(b"num 18446744073709551615\n")?;
    }
    let report = "plan nogc;blocks 4;mutators 1;commands 700000;full 0;collections nursery 0 full \
        0;live objects 0 words 0;held objects 0 words 0;kinds free 4 bump 0 young 0 mature 0 immix \
        0 cells 0 large 0 kept 0";
    text.extend_from_slice(&text_in(alloc, report)?)?;
    assert!(rt; text.len() > 16_777_216);
    assert!(rt; run_line(alloc, "a", text)?.starts_with(b"0|<path"));
    Ok(())
}
