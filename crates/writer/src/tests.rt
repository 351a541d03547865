// A listing that fills its memory, and a line that finds too little of it.
use super::Writer;
use fabric::refusal::Refusal;
use std::test::Fail;

#[test]
fn a_listing(rt: HostRuntime) -> Result<(), Fail> {
    let mut memory = [0; 58];
    let mut writer = Writer::new(&mut memory);
    writer.event(10, b"in", 0, 1, 2)?;
    writer.no(11, 7, 4294967295, 0)?;
    writer.done(12, 0, &[7, 90])?;
    assert_eq!(rt; writer.end(2, 2, Some(105)), Err(Refusal::Memory));
    writer.end(2, 0, None)?;
    assert_eq!(rt; writer.len(), 58);
    assert!(rt; memory == *b"10 in 0 1 2\n11 no 7 4294967295 0\n12 done 0 7 90\nend 2 0 -\n");
    Ok(())
}
