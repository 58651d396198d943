//! Laws of the grammar, as contracts of functions that do nothing.

ghost use Rattle.std.specs.Prelude.{◌≡◌, ◌<◌, ◌↔◌, ℕ, List, Some, slice_index};
ghost use Rattle.cpg_entry.specs.declared.frames.Frame.{Frame};
ghost use Rattle.cpg_wire.specs.declared.codes.Version.{Version};
ghost use Rattle.cpg_wire.specs.declared.codes.Version.TheVariants.{One, Two};
ghost use Rattle.cpg_entry.specs.Ranges.{IsFrame};
ghost use Rattle.cpg_entry.specs.Widths.{FrameFits};
ghost use Rattle.cpg_wire.specs.Versions.{Fits};
ghost use Rattle.cpg_wire.specs.Reading.{frame_of};
ghost use Rattle.cpg_wire.specs.Spelling.{Spells, spelling, HasOneSpelling};

/// No bytes spell two frames.
pub fn spells_one_frame()
    ensures { (bytes : List ℕ) (one other : Frame) → Spells bytes one → Spells bytes other → one ≡ other }
{}

/// A frame within its ranges has exactly one spelling of version 2, and exactly one of version 1 where the
/// rule in it, if any, has at most one condition.
pub fn has_one_spelling()
    ensures two { (frame : Frame) → IsFrame frame → FrameFits frame → HasOneSpelling Two frame }
    ensures one { (frame : Frame) → IsFrame frame → FrameFits frame → Fits One frame → HasOneSpelling One frame }
{}

/// Reading bytes gives a frame exactly where they spell it.
pub fn reads_what_is_spelled()
    ensures exact { (bytes : List ℕ) (frame : Frame) → ((i : ℕ) → slice_index bytes i < 256) → (frame_of bytes ≡ Some frame) ↔ Spells bytes frame }
    ensures again { (version : Version) (frame : Frame) → IsFrame frame → FrameFits frame → Fits version frame → frame_of (spelling version frame) ≡ Some frame }
{}
