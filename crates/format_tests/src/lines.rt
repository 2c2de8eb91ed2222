//! Lines, records and packets of recordings, read and written.
use readings::number::{LineError, LineFault, Mark};
use readings::reading::{RECORD_LEN, Reading};
use recording::cut::{packet_count, packet_data};
use recording::lines::line_at;
use std::test::Fail;

#[test]
fn line_to_record_and_back(rt: HostRuntime) -> Result<(), Fail> {
    let reading = Reading::parse(
        b"1760000000123;1250,0,99,004294967295;0,1,2,3,999,1000;15800,0,1,2,3,4,5,20000",
    )?;
    let mut record = [0u8; RECORD_LEN];
    reading.write_to(&mut record);
    assert_eq!(rt; record[51], 0x20);
    assert_eq!(rt; Reading::from_record(&record), Some(reading));
    Ok(())
}

#[test]
fn faults_have_their_column(rt: HostRuntime) {
    let above = Reading::parse(b"1;2,3,4,5;6,1001,8,9,10,11;1,2,3,4,5,6,7,8");
    assert_eq!(rt;
        above,
        Err(LineError {
            column: 13,
            fault: LineFault::AboveLimit(1000),
        })
    );
    let short = Reading::parse(b"1;2,3,4;");
    assert_eq!(rt;
        short,
        Err(LineError {
            column: 8,
            fault: LineFault::MarkExpected(Mark::Comma),
        })
    );
}

#[test]
fn packets_of_ten_bytes(rt: HostRuntime) {
    let block = b"0123456789";
    assert_eq!(rt; packet_count(block, 4), 3);
    assert_eq!(rt; packet_count(block, 5), 2);
    assert_eq!(rt; packet_count(block, 0), 0);
    assert!(rt; packet_data(block, 4, 1) == b"4567".as_slice());
    assert!(rt; packet_data(block, 4, 2) == b"89".as_slice());
    assert!(rt; packet_data(block, 4, 3).is_empty());
}

#[test]
fn lines_of_a_text(rt: HostRuntime) {
    let text = b"ab\n\ncd";
    assert!(rt; line_at(text, 0) == b"ab".as_slice());
    assert!(rt; line_at(text, 3).is_empty());
    assert!(rt; line_at(text, 4) == b"cd".as_slice());
    assert!(rt; line_at(text, 9).is_empty());
}
