//! The names of the classes that groups fall into.
ghost use Rattle.std.specs.Prelude.{◌≡◌, ◌≤◌, [], ◌∷◌, codes, length, map, nat_eq, IfOk, OnOk};
ghost use Rattle.std.specs.Cmp.Lexicographic.{pointwise};
ghost use Rattle.bsc_policy.specs.declared.bounds.TheConstants.{NAMES, RULES};
ghost use Rattle.bsc_policy.specs.Classes.{class_of, is_among, names_of, place_of, with_name};

use crate::classes::Classes;
use crate::rule::{ANY, Rule};
use bsc_octets::{NoMemory, Octets};
use std::alloc::Global;

/// The names of the classes, for each side of the rules. A group is in the class of its name, and in class 0, whose name is
/// `*`, where no rule has its name on that side.
#[derive(Drop)]
pub(crate) struct Names {
    pub(crate) froms: Vec<Octets>,
    pub(crate) tos: Vec<Octets>,
    ghost few: { (length froms.items ≤ NAMES) × (length tos.items ≤ NAMES) },
}

/// The same octets in memory of their own.
pub(crate) fn copy_of(alloc: Global, octets: &[u8]) -> Result<Octets, NoMemory>
    ensures { IfOk result (λ o. o ≡ octets.now) }
{
    Ok(Octets::from_vec(Vec::from_slice(alloc, octets)?))
}

/// Whether these octets are a name.
fn is_name(octets: &Octets, name: &[u8]) -> bool
    ensures { result ≡ pointwise nat_eq octets.now name.now }
{
    octets.as_slice() == name
}

/// Whether a name is among these.
fn is_among(names: &[Octets], name: &[u8]) -> bool
    ensures { result ≡ is_among names.now name.now }
{
    names.iter().any(|n| is_name(n, name))
}

/// The place of a name among these.
fn place_of(names: &[Octets], name: &[u8]) -> Option<usize>
    ensures { result ≡ place_of names.now name.now }
{
    names.iter().position(|n| is_name(n, name))
}

/// Adds a name behind the others, unless it is among them.
fn add(alloc: Global, names: &mut Vec<Octets>, name: &[u8]) -> Result<(), NoMemory>
    ensures { OnOk result (names.new.items ≡ with_name names.old.items name.now) }
{
    if is_among(names.as_slice(), name) {
        return Ok(());
    }
    names.push(copy_of(alloc, name)?)?;
    Ok(())
}

/// Names that begin with `*`, and have no other yet.
fn begun(alloc: Global) -> Result<Vec<Octets>, NoMemory>
    ensures { IfOk result (λ names. names.items ≡ codes "*" ∷ []) }
{
    let mut names = Vec::new(alloc);
    names.push(copy_of(alloc, ANY.as_bytes())?)?;
    Ok(names)
}

/// The names of the classes of who sends.
fn froms_of(alloc: Global, rules: &[Rule]) -> Result<Vec<Octets>, NoMemory>
    ensures { IfOk result (λ names. names.items ≡ names_of (map (λ r. r.from) rules.now)) }
{
    let mut names = begun(alloc)?;
    for rule in rules {
        add(alloc, &mut names, rule.from.as_slice())?;
    }
    Ok(names)
}

/// The names of the classes of who receives.
fn tos_of(alloc: Global, rules: &[Rule]) -> Result<Vec<Octets>, NoMemory>
    ensures { IfOk result (λ names. names.items ≡ names_of (map (λ r. r.to) rules.now)) }
{
    let mut names = begun(alloc)?;
    for rule in rules {
        add(alloc, &mut names, rule.to.as_slice())?;
    }
    Ok(names)
}

/// The class of a group: the place of its name, or 0 where it isn't among these.
fn class_of(names: &[Octets], group: &[u8]) -> u16
    requires { length names.now ≤ NAMES }
    ensures { result ≡ class_of names.now group.now }
{
    match place_of(names, group) {
        Some(place) => place as u16,
        None => 0,
    }
}

impl Names {
    ghost use Rattle.bsc_policy.specs.Tables.{AreNamesOf, classes_of};

    /// The names of the classes by these rules.
    pub(crate) fn make(alloc: Global, rules: &[Rule]) -> Result<Names, NoMemory>
        requires { length rules.now ≤ RULES }
        ensures { IfOk result (AreNamesOf rules.now) }
    {
        let froms = froms_of(alloc, rules)?;
        let tos = tos_of(alloc, rules)?;
        Ok(Names { froms, tos })
    }

    /// The classes of a group.
    pub(crate) fn classes(&self, group: &[u8]) -> Classes
        ensures { result ≡ classes_of self.now group.now }
    {
        Classes {
            from: class_of(&self.froms, group),
            to: class_of(&self.tos, group),
        }
    }
}
