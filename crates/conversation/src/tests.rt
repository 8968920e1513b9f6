// Lines by hand, from the tables of requests and of answers.

use crate::{Asked, Failing, Named, Told, What, read_request};
use edit::{Edit, Kind, NewEntry};
use journal::{Bytes, Copying, Draft, Span};
use journaled::{Decided, Request};
use refusal::Refusal;
use std::alloc::Global;
use std::io;
use std::process::Abort;
use std::test::Fail;
use totals::{TEAMS, Team, Totals};

// The edit of a line, and its team.
fn edit_of(alloc: Global, line: &str) -> Result<(u32, What), Fail> {
    match read_request(alloc, line.as_bytes())? {
        Some(Asked::Edit { team, what }) => Ok((team, what)),
        _ => Err(Fail::new(line)),
    }
}

#[test]
fn reads_edits(rt: HostRuntime) -> Result<(), Fail> {
    let alloc = rt.alloc();
    let (team, what) = edit_of(alloc, "edit 3 move 17 65536")?;
    let wanted = Edit::Move {
        file: 17,
        offset: 65536,
    };
    assert_eq!(rt; team, 3);
    assert!(rt; what.request() == Request::Edit(wanted));
    let (_, what) = edit_of(alloc, "edit 15 insert-directory 0 c3a9")?;
    let wanted = NewEntry {
        parent: 0,
        kind: Kind::Directory,
        name: "é".as_bytes(),
    };
    assert!(rt; what.request() == Request::Edit(Edit::Insert(wanted)));
    let (_, what) = edit_of(alloc, "edit 0 fill 4294967295")?;
    assert!(rt; what.request() == Request::Fill { file: u32::MAX });
    Ok(())
}

#[test]
fn reads_the_rest(rt: HostRuntime) -> Result<(), Fail> {
    let alloc = rt.alloc();
    let read = read_request(
        alloc,
        b"clip 512 18446744073709551615 2f70726f632f73656c662f66642f33",
    )?;
    let Some(Asked::Clip { start, len, path }) = read else {
        return Err(Fail::new("clip"));
    };
    assert_eq!(rt; (start, len), (512, u64::MAX));
    assert_eq!(rt; path.as_str(), "/proc/self/fd/3");
    let Some(Asked::Listed(Named { number, name })) = read_request(alloc, b"listed 7 -")? else {
        return Err(Fail::new("listed"));
    };
    assert_eq!(rt; (number, name.len()), (7, 0));
    assert!(rt; matches!(read_request(alloc, b"record -")?, Some(Asked::Record(None))));
    Ok(())
}

#[test]
fn reads_totals(rt: HostRuntime) -> Result<(), Fail> {
    let mut line = String::from_str(rt.alloc(), "totals 1459978240 42")?;
    for k in 0..TEAMS {
        line.push_str(if k == 15 {
            " 4294967295 2 3 4"
        } else {
            " 0 0 0 0"
        })?;
    }
    let Some(Asked::Totals(totals)) = read_request(rt.alloc(), line.as_bytes())? else {
        return Err(Fail::new("totals"));
    };
    let last = Team {
        limit: u32::MAX,
        share: 2,
        taken: 3,
        edits: 4,
    };
    assert_eq!(rt; (totals.used, totals.largest), (1459978240, 42));
    assert_eq!(rt; totals.teams[15], last);
    line.push_str(" 0")?;
    assert!(rt; read_request(rt.alloc(), line.as_bytes())?.is_none());
    Ok(())
}

#[test]
fn refuses_other_lines(rt: HostRuntime) -> Result<(), Fail> {
    let lines = [
        "",
        " ",
        "go ",
        "Go",
        "stop 1",
        "note",
        "note ",
        "note 0",
        "note 0G",
        "note C3",
        "note --",
        "record ff",
        "listed 1",
        "maximum +1",
        "maximum 01",
        "maximum 4294967296",
        "maximum -1",
        "edit 0 move 1",
        "edit 0 move  1 2",
        "edit 0 insert-file 0",
        "edit rewrite",
        "totals 1 2",
    ];
    for line in lines {
        assert!(rt;
            read_request(rt.alloc(), line.as_bytes())?.is_none(),
            "{line}"
        );
    }
    assert!(rt; read_request(rt.alloc(), b"\xff")?.is_none());
    Ok(())
}

fn check_told(rt: &impl Abort, alloc: Global, told: Told<'_>, line: &str) -> Result<(), Fail> {
    assert_eq!(rt; told.to_string(alloc)?.as_str(), line);
    Ok(())
}

#[test]
fn tells(rt: HostRuntime) -> Result<(), Fail> {
    let alloc = rt.alloc();
    let ready = Told::Ready {
        finished: true,
        note: b"\x00\xfe",
    };
    check_told(
        &rt,
        alloc,
        ready,
        r#"{"answer":"ready","found":"finished","note":"00fe"}"#,
    )?;
    check_told(&rt, alloc, Told::InTheWay, r#"{"answer":"in_the_way"}"#)?;
    let refused = Told::Refused(Refusal::NotEnoughSpace);
    check_told(&rt, alloc, refused, r#"{"answer":"refused","number":21}"#)?;
    check_told(
        &rt,
        alloc,
        Told::Progress(16777216),
        r#"{"answer":"progress","bytes":16777216}"#,
    )?;
    let failed = Told::Failed {
        on: Failing::Folder,
        begun: false,
        why: io::Error::other("\"C:\\\n\""),
    };
    let line =
        r#"{"answer":"failed","on":"folder","begun":false,"kind":"other","why":"\"C:\\\u000a\""}"#;
    check_told(&rt, alloc, failed, line)
}

#[test]
fn tells_what_is_decided(rt: HostRuntime) -> Result<(), Fail> {
    let draft = Draft {
        image_len: 1459978240,
        number: 9,
        header: b"",
        copy: Copying {
            from: 1,
            to: 2,
            len: 3,
        },
        clip: Span { at: 4, len: 5 },
        table: Bytes {
            at: 6,
            bytes: b"\x01\x00\xab",
        },
        tail: Span { at: 7, len: 8 },
        word: Bytes { at: 9, bytes: b"" },
        lost: Span { at: 10, len: 11 },
        has_record: false,
        record_text: b"",
        note: b"",
    };
    let team = Team {
        limit: 1,
        share: 2,
        taken: 3,
        edits: 4,
    };
    let totals = Totals {
        used: 14,
        largest: 15,
        teams: [team; TEAMS],
    };
    let decided = Decided {
        number: 12,
        draft,
        old_size: 13,
        totals: Some(&totals),
    };
    let front = concat!(
        r#"{"answer":"decided","number":12,"old_size":13,"copy":[1,2,3],"clip":[4,5],"table":[6,"0100ab"],"#,
        r#""tail":[7,8],"word":[9,""],"lost":[10,11],"totals":[14,15"#,
    );
    let mut line = String::from_str(rt.alloc(), front)?;
    for _ in 0..TEAMS {
        line.push_str(",1,2,3,4")?;
    }
    line.push_str("]}")?;
    check_told(&rt, rt.alloc(), Told::Decided(&decided), line.as_str())
}
