//! Rules of words, which several languages share. Each is kept by exactly the words that the reader of such a word takes.
ghost use Rattle.std.specs.Prelude.{◌≡◌, ◌<◌, ◌↔◌, true, [], ◌∷◌, codes, length, is_some, Option, IsOk, IsErr, IfOk, IfErr};
ghost use Rattle.std.specs.List.{list_all};
ghost use Rattle.bsc_text.specs.Words.{words_of};
ghost use Rattle.bsc_text.specs.Grammar.{device_of_word, is_name, maximum_of_word, number_of, vmac_of_word};
ghost use Rattle.bsc_diagnostics.specs.Broken.{IsMissing, IsMore, IsOfWord, Tells, destination_rule, device_rule, maximum_rule, name_rule, number_rule};
ghost use Rattle.bsc_diagnostics.specs.Broken.{maximum_from, one_node_rule, time_rule, unless, vmac_rule, within_rule};
ghost use Rattle.bsc_diagnostics.specs.Forms.{Broken, Says, TellsFirst, any, by_form, differ, digits_rule, first, hub_rules, identity_rules, is_digit, octets_broken, or_no_line, wrong};

use crate::diagnostic::Diagnostic;
use bsc_octets::{LEAST_BVLC, Vmac};
use bsc_text::{LATEST, is_name, next_word, read_device, read_maximum, read_number, read_vmac};

/// What a VMAC is.
const VMAC: &str = "is no VMAC of 12 hexadecimal digits";

/// What a number is.
const NUMBER: &str = "is no number of 1 to 19 digits without a sign or a leading zero";

/// Whether something is so of a word, by the rule that it breaks otherwise.
pub fn hold<'a>(is_so: bool, word: &'a [u8], rule: &'static str) -> Result<(), Diagnostic<'a>>
    ensures kept { IsOk result ↔ (is_so ≡ true) }
    ensures broken { Tells result word.now (unless is_so rule.now) }
{
    if is_so {
        Ok(())
    } else {
        Err(Diagnostic::Word { word, rule })
    }
}

/// The first of two checks that is broken.
pub fn first_of<'a>(
    one: Result<(), Diagnostic<'a>>,
    other: Result<(), Diagnostic<'a>>,
) -> Result<(), Diagnostic<'a>>
    ensures { (a b : Option Broken) → TellsFirst one.entry a → TellsFirst other.entry b → TellsFirst result (first a b) }
{
    match one {
        Ok(()) => other,
        Err(told) => Err(told),
    }
}

/// What is told of a line that is refused: what is broken, or this rule, where nothing of it is.
pub fn told_or<'a>(answer: Result<(), Diagnostic<'a>>, rule: &'static str) -> Diagnostic<'a>
    ensures { (broken : Option Broken) → TellsFirst answer.entry broken → Says result (or_no_line rule.now broken) }
{
    match answer {
        Err(told) => told,
        Ok(()) => Diagnostic::Line { rule },
    }
}

/// The next word of a line of this form, and those behind it.
pub fn word_of<'a>(
    words: &'a [u8],
    form: &'static str,
) -> Result<(&'a [u8], &'a [u8]), Diagnostic<'a>>
    ensures word { IfOk result (λ (word, rest). words_of words.now ≡ word.now ∷ words_of rest.now) }
    ensures missing { IsErr result → words_of words.now ≡ [] }
    ensures told { IfErr result (λ told. IsMissing told form.now) }
    ensures shorter { IfOk result (λ (_, rest). length rest.now < length words.now) }
{
    match next_word(words) {
        Some(found) => Ok(found),
        None => Err(Diagnostic::Missing { form }),
    }
}

/// No words, behind those of a line of this form.
pub fn no_more<'a>(words: &'a [u8], form: &'static str) -> Result<(), Diagnostic<'a>>
    ensures kept { IsOk result ↔ (words_of words.now ≡ []) }
    ensures told { IfErr result (λ told. IsMore told (words_of words.now) form.now) }
{
    match next_word(words) {
        Some((word, _)) => Err(Diagnostic::More { word, form }),
        None => Ok(()),
    }
}

/// The only word of a line of this form, behind its first.
pub fn only_word<'a>(words: &'a [u8], form: &'static str) -> Result<&'a [u8], Diagnostic<'a>>
    ensures word { IfOk result (λ word. words_of words.now ≡ word.now ∷ []) }
    ensures told { TellsFirst result (by_form form.now (any ∷ []) (words_of words.now)) }
{
    let (word, rest) = word_of(words, form)?;
    no_more(rest, form)?;
    Ok(word)
}

/// A name.
pub fn hold_name<'a>(word: &'a [u8]) -> Result<(), Diagnostic<'a>>
    ensures kept { IsOk result ↔ (is_name word.now ≡ true) }
    ensures broken { Tells result word.now (name_rule word.now) }
{
    hold(
        is_name(word),
        word,
        "is no name of 1 to 16 letters, digits or `_`, or is `hub`",
    )
}

/// A VMAC.
pub fn hold_vmac<'a>(word: &'a [u8]) -> Result<(), Diagnostic<'a>>
    ensures kept { IsOk result ↔ (is_some (vmac_of_word word.now) ≡ true) }
    ensures broken { Tells result word.now (vmac_rule word.now) }
{
    hold(read_vmac(word).is_some(), word, VMAC)
}

/// A VMAC that isn't zero.
pub fn hold_destination<'a>(word: &'a [u8]) -> Result<(), Diagnostic<'a>>
    ensures kept { IsOk result → is_some (vmac_of_word word.now) ≡ true }
    ensures broken { Tells result word.now (destination_rule (vmac_of_word word.now)) }
{
    match read_vmac(word) {
        Some(vmac) => hold(vmac != Vmac::ZERO, word, "is the VMAC zero"),
        None => Err(Diagnostic::Word { word, rule: VMAC }),
    }
}

/// A VMAC of one node.
pub fn hold_one_node<'a>(word: &'a [u8]) -> Result<(), Diagnostic<'a>>
    ensures kept { IsOk result → is_some (vmac_of_word word.now) ≡ true }
    ensures broken { Tells result word.now (one_node_rule (vmac_of_word word.now)) }
{
    match read_vmac(word) {
        Some(vmac) => hold(
            vmac != Vmac::ZERO && vmac != Vmac::BROADCAST,
            word,
            "is the VMAC zero or the broadcast, which are no one node's",
        ),
        None => Err(Diagnostic::Word { word, rule: VMAC }),
    }
}

/// A device.
pub fn hold_device<'a>(word: &'a [u8]) -> Result<(), Diagnostic<'a>>
    ensures kept { IsOk result ↔ (is_some (device_of_word word.now) ≡ true) }
    ensures broken { Tells result word.now (device_rule word.now) }
{
    hold(read_device(word).is_some(), word, "is no UUID")
}

/// A maximum length, whichever it is.
pub fn hold_any_maximum<'a>(word: &'a [u8]) -> Result<(), Diagnostic<'a>>
    ensures kept { IsOk result ↔ (is_some (maximum_of_word word.now) ≡ true) }
    ensures broken { Tells result word.now (maximum_rule word.now) }
{
    hold(
        read_maximum(word).is_some(),
        word,
        "is no maximum length of 4 hexadecimal digits",
    )
}

/// A maximum length of at least so many octets.
fn hold_maximum<'a>(word: &'a [u8], least: u16, rule: &'static str) -> Result<(), Diagnostic<'a>>
    ensures { Tells result word.now (maximum_from least rule.now word.now) }
{
    match read_maximum(word) {
        Some(n) => hold(least <= n, word, rule),
        None => hold_any_maximum(word),
    }
}

/// The words of an identity: a VMAC, a device, the longest message and the longest NPDU, whichever they are.
pub fn hold_identity<'a>(
    vmac: &'a [u8],
    device: &'a [u8],
    bvlc: &'a [u8],
    npdu: &'a [u8],
) -> Result<(), Diagnostic<'a>>
    ensures { TellsFirst result (wrong identity_rules (vmac.now ∷ device.now ∷ bvlc.now ∷ npdu.now ∷ [])) }
{
    hold_vmac(vmac)?;
    hold_device(device)?;
    hold_any_maximum(bvlc)?;
    hold_any_maximum(npdu)
}

/// What a hub may have of them: the VMAC of one node, and lengths that aren't too short.
pub fn hold_hub_identity<'a>(
    vmac: &'a [u8],
    bvlc: &'a [u8],
    npdu: &'a [u8],
) -> Result<(), Diagnostic<'a>>
    ensures { TellsFirst result (wrong hub_rules (vmac.now ∷ bvlc.now ∷ npdu.now ∷ [])) }
{
    hold_one_node(vmac)?;
    hold_maximum(bvlc, LEAST_BVLC, "is a longest message below 0040")?;
    hold_maximum(npdu, 1, "is a longest NPDU below 0001")
}

/// A number.
pub fn hold_number<'a>(word: &'a [u8]) -> Result<(), Diagnostic<'a>>
    ensures kept { IsOk result ↔ (is_some (number_of word.now) ≡ true) }
    ensures broken { Tells result word.now (number_rule word.now) }
{
    hold(read_number(word).is_some(), word, NUMBER)
}

/// The time of a line `at`, by the words after its first.
pub fn hold_time<'a>(words: &'a [u8]) -> Result<(), Diagnostic<'a>>
    ensures { TellsFirst result (by_form (codes "at MS") (number_rule ∷ []) (words_of words.now)) }
{
    hold_number(only_word(words, "at MS")?)
}

/// A number from one to another.
pub fn hold_within<'a>(
    word: &'a [u8],
    least: u64,
    greatest: u64,
    rule: &'static str,
) -> Result<(), Diagnostic<'a>>
    ensures { Tells result word.now (within_rule least greatest rule.now (number_of word.now)) }
{
    match read_number(word) {
        Some(n) => hold(least <= n && n <= greatest, word, rule),
        None => Err(Diagnostic::Word { word, rule }),
    }
}

/// Whether an octet is a hexadecimal digit, in either case.
fn is_digit(octet: u8) -> bool
    ensures { result ≡ is_digit octet }
{
    matches!(octet, b'0'..=b'9' | b'A'..=b'F' | b'a'..=b'f')
}

/// Whether all octets are.
fn are_digits(word: &[u8]) -> bool
    ensures { result ≡ list_all is_digit word.now }
{
    word.iter().all(|octet| is_digit(*octet))
}

/// Hexadecimal digits.
pub fn hold_digits<'a>(word: &'a [u8]) -> Result<(), Diagnostic<'a>>
    ensures { Tells result word.now (digits_rule word.now) }
{
    hold(
        are_digits(word),
        word,
        "has octets that are no hexadecimal digits",
    )
}

/// Whether one of two is so, and not both.
fn differ(one: bool, other: bool) -> bool
    ensures { result ≡ differ one other }
{
    one != other
}

/// Octets, over any number of words.
pub fn hold_octets<'a>(words: &'a [u8]) -> Result<(), Diagnostic<'a>>
    ensures { TellsFirst result (octets_broken (words_of words.now)) }
{
    let mut rest = words;
    let mut is_odd = false;
    while let Some((word, after)) = next_word(rest) {
        hold_digits(word)?;
        is_odd = differ(is_odd, word.len() % 2 == 1);
        rest = after;
    }
    if is_odd {
        return Err(Diagnostic::Line {
            rule: "its hexadecimal digits are an odd number",
        });
    }
    Ok(())
}

/// The rule that a time breaks, to which the clock of a script can't be set.
pub fn why_time<'a>(word: &'a [u8]) -> Diagnostic<'a>
    ensures { IsOfWord result word.now (time_rule (number_of word.now)) }
{
    match read_number(word) {
        Some(ms) if ms > LATEST => Diagnostic::Word {
            word,
            rule: "is above 10^15 milliseconds",
        },
        _ => Diagnostic::Word {
            word,
            rule: "is less than the time that the clock is set to",
        },
    }
}
