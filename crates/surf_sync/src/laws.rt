// What holds of the rules of a colony and of the names in them.
ghost use Rattle.std.specs.Prelude.{◌≡◌, ◌<◌, ℕ, Some, length, slice_get};
ghost use Rattle.surf_auto.specs.Locals.{rule_count_in};
ghost use Rattle.surf_sync.specs.declared.code.Code.{Code};
ghost use Rattle.surf_sync.specs.Codes.Mark.{Cell, Frame};
ghost use Rattle.surf_sync.specs.Codes.{HoldsReads, IsCode, IsMark, Mark, OpenBy, Protocol, WholeBy, read_rule, sight};
ghost use Rattle.surf_sync.specs.Numbering.{rule_number};
ghost use Rattle.surf_sync.specs.Rules.{sync_rules, turns_of};
ghost use Rattle.surf_sync.specs.Spelling.{IsSmall, code_in, frame_in, spell};

/// The laws of the rules of a colony: the list holds the read rules and no others, each at the
/// number that the numbering gives it. The name of a code is read as that code.
pub fn sync_laws()
    ensures listed { (P : Protocol) → 0 < P.rule.phases → WholeBy P.last P.rule.phases →
        HoldsReads P (sync_rules P) }
    ensures numbered { (P : Protocol) → 0 < P.rule.phases → WholeBy P.last P.rule.phases →
        (c : Code) (m : Mark) (v : ℕ) →
        IsCode P.rule P.last c → OpenBy P.last c.generation → IsMark P m → sight P c m ≡ Some v →
        slice_get (sync_rules P) (rule_number P c m) ≡ Some (read_rule P c m v) }
    ensures counted { (P : Protocol) → length (sync_rules P) ≡ rule_count_in (turns_of P) P.rule }
    ensures read { (c : Code) → IsSmall c → code_in (spell (Cell c)) ≡ Some c }
    ensures frame_read { (k : ℕ) → k < 4294967296 → frame_in (spell (Frame k)) ≡ Some k }
{}
