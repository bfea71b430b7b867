//! What holds of journals and of verdicts.
ghost use Rattle.std.specs.Prelude.{◌≡◌, ◌⊎◌, ◌++◌, ℕ, List};
ghost use Rattle.bsc_history.specs.declared.limits.About.{About};
ghost use Rattle.bsc_history.specs.declared.entry.Entry.{Entry};
ghost use Rattle.bsc_journal.specs.declared.journal_record.JournalRecord.{JournalRecord};
ghost use Rattle.bsc_journal.specs.Journals.{Audited, Tells};
ghost use Rattle.bsc_journal.specs.Saying.{IsLineOf, Says};
ghost use Rattle.bsc_audit.specs.declared.audit_end.AuditEnd.{AuditEnd};
ghost use Rattle.bsc_audit.specs.Verdicts.{AuditsTo};
ghost use Rattle.bsc_audit_laws.specs.Laws.{EndsWithLine, SaysNothing};

/// A line is that of one entry, at one place.
pub fn one_entry()
    ensures { (l : List ℕ) (place other : ℕ) (e f : Entry) → IsLineOf l place e → IsLineOf l other f → (place ≡ other) × (e ≡ f) }
{}

/// A line says one thing.
pub fn one_saying()
    ensures { (l : List ℕ) (s t : JournalRecord) → Says l s → Says l t → s ≡ t }
{}

/// Journals may be put one after another in any order, where each ends with the end of its last line.
pub fn any_order()
    ensures { (a b : List ℕ) (n : ℕ) → EndsWithLine a → EndsWithLine b → Audited (a ++ b) n → Audited (b ++ a) n }
{}

/// Octets tell one history of one hub, if any.
pub fn one_history()
    ensures { (o : List ℕ) (a b : About) (G H : List Entry) → Tells o a G → Tells o b H → (a ≡ b) × (G ≡ H) }
{}

/// Octets have one verdict, but for the two that say nothing of them.
pub fn one_verdict()
    ensures { (o : List ℕ) (r s : AuditEnd) → AuditsTo o r → AuditsTo o s → (r ≡ s) ⊎ (SaysNothing r ⊎ SaysNothing s) }
{}
