//! The first breach in a whole text.

ghost use Rattle.std.specs.Prelude.{◌≡◌, ◌+◌, ◌<◌, ◌^◌, length, map, flat_map, IfOk};
ghost use Rattle.c_syntax.specs.PreludeText.{prelude};
ghost use Rattle.c_forms.specs.Plain.{plain_source};
ghost use Rattle.c_forms.specs.Text.{source_text};
ghost use Rattle.c_rules.specs.Groups.{breaches};
ghost use Rattle.c_rules.specs.Least.{least};

use crate::declared_names::tables_of;
use crate::funs::look_funs;
use crate::heads::look_structs;
use crate::places::{earlier, unless};
use crate::prototypes::look_prototypes;
use crate::seen::Seen;
use crate::started::{look_starters, started};
use c_forms::Source;
use pl_base::Memory;
use std::alloc::Global;

/// The length of the prelude.
#[tactic(auto, unfolding(c_syntax::specs::PreludeText::prelude))]
fn prelude_len() -> u32
    ensures { result ≡ length prelude }
{
    1677
}

/// The first byte of the first name, expression, prototype, structure of arguments or starter that breaks a rule on sorts,
/// names, numbers of locals, prototypes or threads.
#[tactic(auto, using(crate::proofs::WholeLeast::whole_least, crate::proofs::SourceLaws::source_length))]
pub fn first_breach(alloc: Global, source: &Source) -> Result<Option<u32>, Memory>
    requires { length (source_text (plain_source source.now)) < 2 ^ 32 }
    ensures { IfOk result (λ place. place ≡ least (breaches (plain_source source.now))) }
{
    let list = source.funs.as_slice();
    let heads = started(alloc, list)?;
    let tables = tables_of(alloc, source, heads.as_slice())?;
    let mut seen = Seen::new(alloc);
    let begin = prelude_len();
    let structs = look_structs(alloc, &tables, &mut seen, begin, source.structs.as_slice())?;
    let written = source.prototypes.as_slice();
    let prototypes = look_prototypes(alloc, &tables, &mut seen, structs.end, written, list)?;
    let starters = look_starters(prototypes.end, source.starters.as_slice(), heads.as_slice());
    let funs = look_funs(alloc, &tables, written.len(), starters.end, list)?;
    let main = unless(tables.has_main(), funs.end + 19);
    let declared = earlier(structs.least, prototypes.least);
    Ok(earlier(earlier(earlier(declared, starters.least), funs.least), main))
}
