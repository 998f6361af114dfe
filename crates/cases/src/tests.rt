// Many of the worked cases through the code, and what else the calls do on small inputs.
use listing::listing;
use model::{Cores, Kind};
use refusal::{Reason, Refusal};
use std::process::Abort;
use std::test::Fail;
use trace::{Draft, Record, Span, TraceReader, check_bundle, check_trace, write_record};

// The worked bundle of two cores.
const BUNDLE: [u8; 32] = [
    0x03, 0x00, 0x0b, 0x0e, 0x01, 0x00, 0x00, 0x00, 0x07, 0x01, 0x03, 0x00, 0x05, 0x02, 0x00, 0x10,
    0x0f, 0x00, 0x08, 0x02, 0x00, 0x00, 0x00, 0x05, 0x01, 0x0e, 0x01, 0x00, 0x00, 0x00, 0x09, 0x01,
];

// The answer is the refusal of this number and place.
fn refused<T: Drop>(rt: &impl Abort, answer: Result<T, Refusal>, number: u8, place: usize) {
    let refusal = answer.err().map(|f| (u8::from(f.reason), f.place));
    assert_eq!(rt; refusal, Some((number, place)));
}

fn listed(rt: &(impl Abort + AllocGlobal), bytes: &[u8], text: &str) -> Result<(), Fail> {
    let found = listing(rt.alloc(), bytes)?;
    assert_eq!(rt; found.as_str(), text);
    Ok(())
}

#[test]
fn faulty_traces(rt: HostRuntime) {
    refused(&rt, check_trace(&[0x01, 0x00, 0x00]), 14, 0);
    refused(&rt, check_trace(&[0x10]), 11, 0);
    refused(&rt, check_trace(&[0x08]), 12, 0);
    refused(&rt, check_trace(&[0x08, 0x00]), 13, 0);
    refused(&rt, check_trace(&[0x09, 0x00, 0x00, 0x07]), 13, 0);
    refused(&rt, check_trace(&[0x09, 0x00, 0x00]), 12, 0);
    refused(&rt, check_trace(&[0x19, 0x00, 0x00]), 11, 0);
    refused(&rt, check_trace(&[0x02, 0x00]), 14, 0);
    refused(
        &rt,
        check_trace(&[0x0c, 0x00, 0x00, 0x00, 0x00, 0x05]),
        13,
        0,
    );
    refused(&rt, check_trace(&[0x04, 0x00, 0x00, 0x00, 0x05]), 14, 0);
    refused(
        &rt,
        check_trace(&[0x0c, 0x00, 0x00, 0x00, 0x05, 0x02]),
        14,
        0,
    );
    refused(&rt, check_trace(&[0x00, 0x00, 0x10]), 11, 2);
}

#[test]
fn faulty_bundles(rt: HostRuntime) -> Result<(), Fail> {
    let one = Cores::try_from(1)?;
    let two = Cores::try_from(2)?;
    refused(&rt, check_bundle(&[], two), 12, 0);
    refused(&rt, check_bundle(&[0x04], two), 11, 0);
    refused(&rt, check_bundle(&[0x01, 0x00], one), 12, 1);
    refused(&rt, check_bundle(&[0x01, 0x00, 0x05, 0x10], one), 12, 1);
    refused(
        &rt,
        check_bundle(&[0x03, 0x00, 0x01, 0x08, 0x00, 0x02, 0x08, 0x01], two),
        12,
        3,
    );
    refused(
        &rt,
        check_bundle(&[0x01, 0x00, 0x01, 0x00, 0xff], one),
        15,
        4,
    );
    Ok(())
}

#[test]
fn a_bundle_is_read(rt: HostRuntime) -> Result<(), Fail> {
    let bundle = check_bundle(&BUNDLE, Cores::try_from(2)?)?;
    let first = Span {
        start: 3,
        end: 14,
        records: 2,
    };
    let second = Span {
        start: 16,
        end: 32,
        records: 2,
    };
    assert_eq!(rt; bundle.spans[0], first);
    assert_eq!(rt; bundle.spans[1], second);
    let mut reader = TraceReader::resume(&BUNDLE, first.start, first.end, 0);
    let store = Record {
        gap: 0,
        line: 1,
        word: 7,
        kind: Kind::Store,
    };
    let load = Record {
        gap: 5,
        line: 2,
        word: 0,
        kind: Kind::Load,
    };
    assert_eq!(rt; reader.next()?, Some(store));
    assert_eq!(rt; reader.next()?, Some(load));
    assert_eq!(rt; reader.next()?, None);
    assert_eq!(rt; reader.next()?, None);
    assert_eq!(rt; reader.position(), (14, 2));
    Ok(())
}

#[test]
fn a_refused_read_moves_nothing(rt: HostRuntime) -> Result<(), Fail> {
    let mut reader = TraceReader::new(&[0x00, 0x10]);
    assert!(rt; reader.next()?.is_some());
    let refusal = Reason::UnknownMapBits.at(1);
    assert_eq!(rt; reader.next(), Err(refusal));
    assert_eq!(rt; reader.next(), Err(refusal));
    assert_eq!(rt; reader.position(), (1, 0));
    Ok(())
}

#[test]
fn records_are_written(rt: HostRuntime) -> Result<(), Fail> {
    let mut out = [9u8; 12];
    let draft = Draft {
        gap: 8,
        line: 2,
        word: 5,
        kind: 1,
    };
    let kindless = Draft {
        gap: 0,
        line: 0,
        word: 5,
        kind: 3,
    };
    let stray = Draft {
        gap: 0,
        line: 0,
        word: 5,
        kind: 2,
    };
    assert_eq!(rt;
        write_record(&mut out, 13, 0, kindless),
        Err(Reason::KindRange.at(0))
    );
    assert_eq!(rt;
        write_record(&mut out, 13, 0, stray),
        Err(Reason::RedundantField.at(0))
    );
    assert_eq!(rt;
        write_record(&mut out, 4, 0, draft),
        Err(Reason::NoSpace.at(0))
    );
    assert_eq!(rt;
        write_record(&mut out, 13, 0, draft),
        Err(Reason::NoSpace.at(0))
    );
    assert_eq!(rt; out, [9; 12]);
    assert_eq!(rt; write_record(&mut out, 1, 0, draft)?, 10);
    assert_eq!(rt; out, [9, 15, 0, 8, 2, 0, 0, 0, 5, 1, 9, 9]);
    Ok(())
}

#[test]
fn inputs_are_listed(rt: HostRuntime) -> Result<(), Fail> {
    listed(&rt, &[2, 4, 4, 0], "refused,1,0\n")?;
    listed(&rt, &[0, 4, 4, 2, 0, 0], "refused,2,0\n")?;
    listed(&rt, &[9, 4, 4, 0, 0, 0], "refused,2,0\n")?;
    listed(&rt, &[2, 4, 4, 2, 0, 0], "refused,4,0\n")?;
    listed(&rt, &[2, 4, 4, 0, 3, 0], "refused,4,0\n")?;
    listed(&rt, &[2, 4, 4, 0, 0], "refused,12,0\n")?;
    listed(&rt, &[1, 4, 4, 0, 0, 1, 0, 1, 0x10], "refused,11,3\n")?;
    listed(
        &rt,
        &[2, 0, 0, 1, 2, 0],
        "core,index,gap,kind,line,word\ntotal,0:0:0,1:0:0\n",
    )
}

#[test]
fn long_inputs_are_refused(rt: HostRuntime) -> Result<(), Fail> {
    let heap = rt.alloc();
    let mut long = vec![in heap; 0u8; 65_537]?;
    listed(&rt, &long, "refused,1,0\n")?;
    long.truncate(65_536);
    listed(&rt, &long, "refused,2,0\n")
}
