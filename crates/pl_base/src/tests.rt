use super::*;
use std::cmp::Ordering;
use std::process::Abort;
use std::test::*;

fn crosses<T: Send + Sync>(_value: &T) {}

#[test]
fn names_and_items_cross_threads(rt: HostRuntime) -> Result<(), Fail> {
    let alloc = rt.alloc();
    let one = Name::of(alloc, "α")?;
    let other = Name::of(alloc, "α")?;
    assert!(rt; one.same(&other));
    assert_eq!(rt; one.bytes(), [206u8, 177].as_slice());
    assert_eq!(rt; one.text(), "α");
    crosses(&one);
    let mut list = Vec::new(alloc);
    list.push(one)?;
    let items = Items::of(list);
    assert_eq!(rt; items.as_slice().len(), 1);
    crosses(&items);
    crosses(&Memory);
    assert_eq!(rt; items.into_vec().len(), 1);
    Ok(())
}

#[test]
fn a_listed_call_fails(rt: HostRuntime) -> Result<(), Fail> {
    let alloc = rt.alloc();
    let mut fails = Vec::new(alloc);
    fails.push(1)?;
    let mut host = MemoryHost::new(alloc, Vec::new(alloc), Vec::new(alloc), fails);
    assert!(rt; host.put("f", b"one").is_ok());
    assert_eq!(rt; host.put("f", b"two"), Err(HostError::Failed));
    assert!(rt; host.put("f", b"three").is_ok());
    assert_eq!(rt; host.file("f"), Some(b"three".as_slice()));
    assert!(rt; host.file("g").is_none());
    assert_eq!(rt; host.take("f", 4), Err(TakeError::TooLong));
    assert!(rt; host.take("f", 5).is_ok());
    Ok(())
}

#[test]
fn a_steady_host_gives_its_input(rt: HostRuntime) -> Result<(), Fail> {
    let alloc = rt.alloc();
    let mut host = SteadyHost::new(alloc, Vec::new(alloc), Vec::from_slice(alloc, b"ab")?);
    let mut buf = [0u8; 4];
    assert_eq!(rt; host.read_in(&mut buf), Ok(2));
    assert_eq!(rt; host.read_in(&mut buf), Ok(0));
    assert_eq!(rt; host.write_out(b"xyz"), Ok(3));
    assert_eq!(rt; host.out(), b"xyz".as_slice());
    assert_eq!(rt; host.take("f", 4), Err(TakeError::Failed));
    Ok(())
}

#[test]
fn a_name_is_mangled(rt: HostRuntime) -> Result<(), Fail> {
    let alloc = rt.alloc();
    for (text, want) in [
        ("α", "_u0003b1"),
        ("a_1", "a__1"),
        ("_", "__"),
        ("Z9", "Z9"),
        ("😀", "_u01f600"),
    ] {
        let name = Name::of(alloc, text)?;
        assert_eq!(rt;
            name.mangled(alloc)?.as_slice(),
            want.as_bytes(),
            "at {text}"
        );
    }
    Ok(())
}

fn shown(answer: Result<Perm, SumError>) -> Result<(u32, u32), SumError> {
    let sum = answer?;
    Ok((sum.num(), sum.den()))
}

#[test]
fn permissions_are_split_and_joined(rt: HostRuntime) {
    assert!(rt; Perm::new(0, 1).is_none());
    assert!(rt; Perm::new(3, 2).is_none());
    assert!(rt; Perm::new(1, 1_048_577).is_none());
    let half = Perm::new(1, 2).expect(&rt, "a permission");
    let thirds = Perm::new(4, 6).expect(&rt, "a permission");
    let finest = Perm::new(1, 1_048_576).expect(&rt, "a permission");
    assert_eq!(rt; (thirds.num(), thirds.den()), (2, 3));
    assert_eq!(rt; finest.half().err(), Some(TooFine { den: 2_097_152 }));
    let third = thirds.half().ok().expect(&rt, "a permission");
    assert_eq!(rt; (third.num(), third.den()), (1, 3));
    assert_eq!(rt; shown(half.plus(half)), Ok((1, 1)));
    assert_eq!(rt; shown(third.plus(half)), Ok((5, 6)));
    assert_eq!(rt; shown(thirds.plus(half)), Err(SumError::Over));
    assert_eq!(rt;
        shown(finest.plus(third)),
        Err(SumError::TooFine(3_145_728))
    );
    assert_eq!(rt; thirds.compare(half), Ordering::Greater);
    assert_eq!(rt; third.compare(half), Ordering::Less);
    assert_eq!(rt; half.compare(half), Ordering::Equal);
    crosses(&half);
}
