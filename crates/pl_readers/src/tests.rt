ghost use Rattle.std.specs.Prelude.{◌^◌};
ghost use Rattle.pl_readers.specs.Bytes.{Number, number};

use super::*;
use crate::bytes::{begins, begins_number, number, word};
use std::process::Abort;
use std::test::*;

#[test]
fn words_are_read(rt: HostRuntime) -> Result<(), Fail> {
    assert!(rt; matches!(word(b"end 3", b"end "), Ok(b"3")));
    assert!(rt;
        matches!(
            word(b"ens", b"end "),
            Err(ReadError::Stop(Stop {
                is_deep: false,
                left: 1
            }))
        )
    );
    assert!(rt;
        matches!(
            word(b"en", b"end "),
            Err(ReadError::Stop(Stop {
                is_deep: false,
                left: 0
            }))
        )
    );
    assert!(rt; begins(b"end", b'e') && !begins(b"end", b'n') && !begins(b"", b'e'));
    Ok(())
}

#[test]
fn numbers_are_read(rt: HostRuntime) -> Result<(), Fail> {
    let cases = [
        (b"0 ".as_slice(), 0u128, 1),
        (b"007", 0, 2),
        (b"255;", 255, 1),
        (b"256", 25, 1),
        (b"12ab", 12, 2),
    ];
    for (text, value, left) in cases {
        match number(text, 256) {
            Ok((found, rest)) => {
                assert_eq!(rt; found, value);
                assert_eq!(rt; rest.len(), left);
            }
            Err(_) => panic!(rt; "{text:?}"),
        }
    }
    assert!(rt;
        matches!(
            number(b"x1", 256),
            Err(ReadError::Stop(Stop {
                is_deep: false,
                left: 2
            }))
        )
    );
    assert!(rt; begins_number(b"9") && !begins_number(b"x") && !begins_number(b""));
    assert!(rt;
        matches!(
            refused(&[1, 2]),
            ReadError::Stop(Stop {
                is_deep: false,
                left: 2
            })
        )
    );
    assert!(rt;
        matches!(
            too_deep(&[1, 2]),
            ReadError::Stop(Stop {
                is_deep: true,
                left: 2
            })
        )
    );
    Ok(())
}

struct Decimal;

impl Format<u8, u64> for Decimal {
    ghost texts = { Number (2 ^ 64) };

    ghost wider = { Number (2 ^ 64) };

    ghost reader = { number (2 ^ 64) };
}

#[test]
fn laws_are_of_formats() {
    whole_reads::<u8, u64, Decimal>();
    mapped_reads::<u8, u64, bool, Decimal>();
}
