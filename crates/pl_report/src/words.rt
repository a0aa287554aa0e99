// The words of enums.
ghost use Rattle.std.specs.Prelude.{◌≡◌};
ghost use Rattle.pl_report.specs.Lines as text;

use pl_resource::Fault;
use pl_words::UsageKind;

pub fn kind_word(kind: UsageKind) -> &'static str
    ensures { result.now ≡ text.kind_text kind }
{
    match kind {
        UsageKind::NoCommand => "NoCommand",
        UsageKind::UnknownCommand => "UnknownCommand",
        UsageKind::UnknownOption => "UnknownOption",
        UsageKind::MissingValue => "MissingValue",
        UsageKind::Repeated => "Repeated",
        UsageKind::BadNumber => "BadNumber",
        UsageKind::ExtraWord => "ExtraWord",
        UsageKind::MissingWord => "MissingWord",
    }
}

pub fn fault_words(fault: Fault) -> &'static str
    requires { text.HasWords fault }
    ensures { result.now ≡ text.fault_words fault }
{
    match fault {
        Fault::Dead => "dead block",
        Fault::Outside => "outside",
        Fault::Kind => "wrong kind",
        Fault::Null => "null",
        Fault::Overflow => "overflow",
        Fault::ZeroDivisor => "zero divisor",
        Fault::LockFreed => "freed lock",
        Fault::LockFree => "free lock",
        Fault::GhostMissing => unreachable!(),
    }
}
