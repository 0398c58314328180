//! Laws of frames: what the definitions of marks and of the content of a frame say in the words of the standard. No code.
#![tactic(auto)]

ghost use Rattle.std.specs.Prelude.{ℕ, List, [], ◌∷◌, ◌++◌, Bool, Some, map, drop, ◌≡◌, ◌↔◌};
ghost use Rattle.swp_base.specs.DataUnits.{IsLpdu};
ghost use Rattle.swp_frame.specs.declared.fed.Fed.TheVariants.{Frame};
ghost use Rattle.swp_frame.specs.Kept.{AreBytes};
ghost use Rattle.swp_frame.specs.Verdicts.{verdicts};
ghost use Rattle.swp_frame.specs.Signal.{Symbol, mark_of, start_mark, end_mark, since_start, read_on};
ghost use Rattle.swp_frame.specs.Stuffing.{start_of_frame, end_of_frame};
ghost use Rattle.swp_frame.specs.Content.{judged};
ghost use Rattle.swp_crc.specs.Crc.{crc_of};
ghost use Rattle.frame_laws.specs.Remainder.{IsCrc};
ghost use Rattle.frame_laws.specs.Marks.{EndsStart, EndsEnd, IsOpenSince};
ghost use Rattle.frame_laws.specs.Whole.{sent, all_framed, SpellAll, verdicts_behind, IsBetweenFrames};
ghost use Rattle.frame_laws.specs.Spelling.{Spells, NoSixOnes, content_read};

/// A start of frame ends exactly where the last eight elements are 0, six 1 and 0, and an end of frame exactly where they are
/// 0 and seven 1, read with a 0 in front of the first element and behind each break.
pub fn marks_are_eight_elements()
    ensures start { (seen : List Symbol) → (mark_of seen ≡ start_mark) ↔ EndsStart seen }
    ensures end { (seen : List Symbol) → (mark_of seen ≡ end_mark) ↔ EndsEnd seen }
{}

/// What is read from bits that spell a content is this content, and no other: so a list of bits spells one content at most.
pub fn spelled_content_is_read()
    ensures { (spelling content : List Bool) → Spells spelling content → content_read spelling ≡ content }
{}

/// Each list of bits with no six 1 bits in a row, as any between a start and an end of frame, spells what is read from it.
pub fn bits_spell_what_is_read()
    ensures { (spelling : List Bool) → NoSixOnes 0 spelling → Spells spelling (content_read spelling) }
{}

/// A frame is open exactly where the last mark is a start of frame, and what is read of it is what came after this mark.
pub fn open_frame_by_places()
    ensures { (seen since : List Symbol) → (since_start seen ≡ Some since) ↔ IsOpenSince seen since }
{}

/// The frame of an LPDU, alone on a line, is read as this LPDU, and nothing else is.
pub fn written_frame_is_read()
    ensures { (lpdu : List ℕ) → IsLpdu lpdu → AreBytes lpdu → verdicts (sent lpdu) ≡ Frame lpdu ∷ [] }
{}

/// Behind a start of frame, whatever came before it, bits that spell a content and an end of frame give the verdict on this
/// content and nothing else; so does an end of frame that shares its 0 with the start, on the empty content.
pub fn spelled_frame_is_judged()
    ensures apart { (seen : List Symbol) (spelling content : List Bool) → Spells spelling content
        → verdicts_behind (read_on seen start_of_frame) (spelling ++ end_of_frame) ≡ judged content ∷ [] }
    ensures shared { (seen : List Symbol) → verdicts_behind (read_on seen start_of_frame) (drop 1 end_of_frame) ≡ judged [] ∷ [] }
{}

/// Frames one directly behind another are read, each as its content says, whatever came before while no frame was open.
pub fn frames_are_read_one_behind_another()
    ensures { (seen : List Symbol) (spellings contents : List (List Bool)) → IsBetweenFrames seen → SpellAll spellings contents
        → verdicts_behind seen (all_framed spellings) ≡ map judged contents }
{}

/// The CRC is the complement of what division by x^16 + x^12 + x^5 + 1 leaves of a message: the message, with sixteen zeros
/// behind it and its first sixteen bits complemented, is a multiple of that polynomial and this remainder.
pub fn crc_is_what_division_leaves()
    ensures { (bytes : List ℕ) → IsCrc bytes (crc_of bytes) }
{}
