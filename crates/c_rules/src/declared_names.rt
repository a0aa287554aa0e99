//! Tables of what a text declares.

ghost use Rattle.std.specs.Prelude.{◌≡◌, ◌<◌, ◌≤◌, ◌^◌, length, map, drop, IfOk};
ghost use Rattle.c_forms.specs.Plain.{plain_fun, plain_source};
ghost use Rattle.c_syntax.specs.Rules.{members_of};
ghost use Rattle.c_rules.specs.Groups as spec;
ghost use Rattle.c_rules.specs.ByName.{structs_in, heads_in};
ghost use Rattle.c_rules.specs.Seen.{taken_in};
ghost use Rattle.c_rules.specs.Tables.{known_of};

use crate::seen::Seen;
use crate::tables::Tables;
use c_forms::{Fun, Head, Member, Source, Struct};
use pl_base::{Memory, Name};
use std::alloc::Global;
use std::collections::HashMap;

/// The members of structures by name; of two structures of one name the first counts.
pub fn struct_table<'a>(
    alloc: Global,
    list: &'a [Struct],
) -> Result<HashMap<&'a str, &'a [Member]>, Memory>
    ensures { IfOk result (λ table. structs_in table ≡ members_of (map spec.struct_of list.now)) }
{
    let mut table = HashMap::new(alloc);
    let mut i = list.len();
    while i > 0 {
        i -= 1;
        let d = &list[i];
        table.insert(d.name.text(), d.members.as_slice())?;
    }
    Ok(table)
}

fn its_head(f: &Fun) -> &Head
    ensures { result.now ≡ f.now.head }
{
    &f.head
}

/// The heads of functions by name; of two functions of one name the first counts.
fn head_table<'a>(alloc: Global, list: &'a [Fun]) -> Result<HashMap<&'a str, &'a Head>, Memory>
    ensures { IfOk result (λ table. heads_in table ≡ spec.head_of (map (λ f. f.head) (map plain_fun list.now))) }
{
    let mut table = HashMap::new(alloc);
    let mut i = list.len();
    while i > 0 {
        i -= 1;
        let f = &list[i];
        table.insert(f.head.name.text(), its_head(f))?;
    }
    Ok(table)
}

fn its_name(h: &Head) -> &Name
    ensures { result.now ≡ h.now.name }
{
    &h.name
}

/// The heads behind the first ones.
fn heads_behind<'a, 'b>(heads: &'b [&'a Head], count: usize) -> &'b [&'a Head]
    ensures { result.now ≡ drop count heads.now }
{
    if count < heads.len() {
        &heads[count..]
    } else {
        &[]
    }
}

/// The names of heads.
fn names_of<'a>(alloc: Global, heads: &[&'a Head]) -> Result<Seen<'a>, Memory>
    ensures { IfOk result (λ seen. taken_in seen ≡ spec.among (map (λ h. h.name) (map (λ h. h.now) heads.now))) }
{
    let mut seen = Seen::new(alloc);
    for h in heads {
        seen.put(its_name(*h))?;
    }
    Ok(seen)
}

/// What a text declares in which threads begin with functions of these heads.
pub(crate) fn tables_of<'a>(
    alloc: Global,
    source: &'a Source,
    heads: &[&'a Head],
) -> Result<Tables<'a>, Memory>
    requires { map (λ h. h.now) heads.now ≡ spec.started (map plain_fun source.now.funs) }
    ensures { IfOk result (λ tables. known_of tables ≡ spec.known_in (plain_source source.now)) }
{
    let structs = struct_table(alloc, source.structs.as_slice())?;
    let table = head_table(alloc, source.funs.as_slice())?;
    let left = heads_behind(heads, source.starters.as_slice().len());
    let missing = names_of(alloc, left)?;
    Ok(Tables {
        structs,
        heads: table,
        missing,
    })
}
