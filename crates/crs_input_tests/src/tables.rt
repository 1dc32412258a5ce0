//! Tables: the log of each, and the record that a refusal tells.
use crs_import::{ImportRefused, RowWord, import};
use std::alloc::Global;
use std::test::Fail;

/// The log of the lines behind the six names.
fn import_lines(alloc: Global, lines: &[u8]) -> Result<Vec<u8>, ImportRefused> {
    let mut table = Vec::from_slice(alloc, b"what,date,name,args,old,new\n")?;
    table.extend_from_slice(lines)?;
    import(alloc, table.as_slice())
}

#[test]
fn records_are_lines(rt: HostRuntime) -> Result<(), Fail> {
    let log = import_lines(
        rt.alloc(),
        b"event,10,a,,,\nchange,8,valve,s1,closed,open\nclock,14,,,,\nend,,,,,\n",
    )?;
    assert!(rt; log.as_slice() == b"10 a\n8 valve[s1]:(closed,open)\nclock 14\nend\n".as_slice());
    let log = import_lines(rt.alloc(), b"event,007,a,x;y,,\r\ndelay,\"5\",,,,")?;
    assert!(rt; log.as_slice() == b"7 a[x,y]\ndelay 5\n".as_slice());
    assert!(rt; import_lines(rt.alloc(), b"")?.is_empty());
    Ok(())
}

/// The second record has the word.
fn second(word: RowWord) -> ImportRefused {
    ImportRefused::Row { row: 2, word }
}

#[test]
fn the_first_faulty_record_is_told(rt: HostRuntime) {
    let what = ImportRefused::Row {
        row: 3,
        word: RowWord::What,
    };
    let rows: [(&[u8], ImportRefused); 15] = [
        (b"end,,,,,\nevents,5,a,,,", what),
        (b"event,1,a,,", ImportRefused::Csv { row: 2 }),
        (
            b"end,,,,,\nend,,,,,,\nx,,,,,",
            ImportRefused::Csv { row: 3 },
        ),
        (b"event,x,a,,,", second(RowWord::Date)),
        (b"event,1099511627776,a,,,", second(RowWord::Date)),
        (b"delay,,,,,", second(RowWord::Date)),
        (b"event,1,a b,;,,", second(RowWord::Name)),
        (b"event,1,a,x;,,z", second(RowWord::Args)),
        (b"event,1,a,;x,,", second(RowWord::Args)),
        (b"event,1,a,1;2;3;4;5;6;7;8;9,,", second(RowWord::Args)),
        (b"change,1,a,,,z", second(RowWord::Change)),
        (b"change,1,a,,z,", second(RowWord::Change)),
        (b"event,1,a,1;2;3;4;5;6;7;8,,z", second(RowWord::Extra)),
        (b"clock,5,,,,z", second(RowWord::Extra)),
        (b"end,1,,,,", second(RowWord::Extra)),
    ];
    for (lines, refused) in rows {
        match import_lines(rt.alloc(), lines) {
            Ok(_) => assert!(rt; false),
            Err(e) => assert!(rt; e == refused, "{e:?}"),
        }
    }
}

#[test]
fn the_first_record_is_the_six_names(rt: HostRuntime) {
    let tables: [&[u8]; 4] = [
        b"",
        b"\n\n",
        b"what,date,name,args,old\nevent,1,a,,,",
        b"what,date,name,args,new,old\nend,,,,,",
    ];
    for table in tables {
        match import(rt.alloc(), table) {
            Ok(_) => assert!(rt; false),
            Err(e) => assert!(rt;
                e == ImportRefused::Row {
                    row: 1,
                    word: RowWord::Header
                },
                "{e:?}"
            ),
        }
    }
}

#[test]
fn a_table_has_a_limit(rt: HostRuntime) -> Result<(), Fail> {
    let table = vec![in rt.alloc(); b'\n'; 67108865]?;
    match import(rt.alloc(), table.as_slice()) {
        Ok(_) => assert!(rt; false),
        Err(e) => assert!(rt;
            e == ImportRefused::Row {
                row: 0,
                word: RowWord::Size
            }
        ),
    }
    Ok(())
}
