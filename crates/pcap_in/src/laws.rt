//! What the definitions of a capture and of a reader's answers imply, for every text and reader.
ghost use Rattle.std.specs.Prelude.{◌≡◌, ◌↔◌, ◌⊎◌, ℕ, Bool, true, List, [], ◌∷◌, ◌++◌, ◌+◌, ◌<◌, None, length, map};
ghost use Rattle.std.specs.List.{All};
ghost use Rattle.onvm_base.specs.declared.frame.Frame.{Frame};
ghost use Rattle.pcap_in.specs.Calls.{Call, Lead, bytes_fed_by, frames_given_by};
ghost use Rattle.pcap_in.specs.Classic.{IsCapture};
ghost use Rattle.pcap_in.specs.Emitted.{emit, IsEmittable, with_cut_tail};
ghost use Rattle.pcap_in.specs.Faulty.{IsCaptureUpTo};
ghost use Rattle.pcap_in.specs.Reading.{Reading, Pulls, AreLeft, IsKept, unfed_reading};
ghost use Rattle.pcap_in.specs.declared.judge.TheConstants.{HEAD_LEN};
ghost use Rattle.onvm_base.specs.declared.limits.TheConstants.{MAX_FRAME_BYTES};
ghost use Rattle.pcap_in.specs.declared.pull.PcapFault.{PcapFault};
ghost use Rattle.pcap_in.specs.declared.pull.PcapFault.TheVariants.{Torn};
ghost use Rattle.pcap_in.specs.declared.pull.Pull.{Pull};
ghost use Rattle.pcap_in.specs.declared.pull.Pull.TheVariants as pull;

// Texts: each has one reading.

/// Every text is a capture, or has a fault behind its first frames.
pub fn every_text_has_a_reading()
    ensures { (text : List ℕ) → ((frames : List Frame) × IsCapture text frames)
        ⊎ ((frames : List Frame) × (fault : PcapFault) × IsCaptureUpTo text frames fault) }
{}

/// No text is the capture of two lists of frames.
pub fn one_reading()
    ensures { (text : List ℕ) (frames others : List Frame)
        → IsCapture text frames → IsCapture text others → frames ≡ others }
{}

/// No text has two faults, or two lists of frames before its fault.
pub fn one_fault()
    ensures { (text : List ℕ) (frames others : List Frame) (fault other : PcapFault)
        → IsCaptureUpTo text frames fault → IsCaptureUpTo text others other
        → (frames ≡ others) × (fault ≡ other) }
{}

/// A capture has no fault, neither behind all its frames nor before.
pub fn a_capture_has_no_fault()
    ensures { (text : List ℕ) (xs ys : List Frame) (fault : PcapFault)
        → IsCapture text xs → ¬ (IsCaptureUpTo text ys fault) }
{}

/// A capture that a capture begins with has its first frames.
pub fn a_captures_begin_has_its_first_frames()
    ensures { (text used rest : List ℕ) (xs ys : List Frame)
        → IsCapture text xs → text ≡ used ++ rest → IsCapture used ys → (zs : List Frame) × (xs ≡ ys ++ zs) }
{}

/// A capture that a text with a fault begins with has the first of its frames: so where these are
/// within a limit, no capture that it begins with passes it.
pub fn a_faulty_texts_begin_has_its_first_frames()
    ensures { (text used rest : List ℕ) (frames first : List Frame) (fault : PcapFault)
        → IsCaptureUpTo text frames fault → text ≡ used ++ rest → IsCapture used first
        → (others : List Frame) × (frames ≡ first ++ others) }
{}

/// What is emitted is a capture of the frames, each tail cut so that with the frame's length it is
/// at most 4,294,967,295.
pub fn what_is_emitted_is_read_again()
    ensures { (frames : List Frame) → All IsEmittable frames
        → IsCapture (emit frames) (map with_cut_tail frames) }
{}

// One call of a reader.

/// A reader has one answer, which leaves one reader: so More, End and Bad come exactly where their
/// definitions say, and each fault is the first in its item.
pub fn one_answer()
    ensures { (old new other_new : Reading) (answer other : Pull)
        → Pulls old answer new → Pulls old other other_new → (answer ≡ other) × (new ≡ other_new) }
{}

/// A call of `next` loses no byte: place and rest together are the bytes fed.
pub fn no_byte_is_lost()
    ensures { (old new : Reading) (answer : Pull) → Pulls old answer new
        → (new.place + length new.rest ≡ old.place + length old.rest)
        × (new.finished ≡ old.finished) }
{}

/// A fault that was told is told from then on, whatever is fed and asked.
pub fn a_fault_is_told_from_then_on()
    ensures { (old between new next : Reading) (calls : List Call) (fault : PcapFault) (answer : Pull)
        → Pulls old (pull.Bad fault) between → Lead calls between new → Pulls new answer next
        → answer ≡ pull.Bad fault }
{}

/// Where more is wanted, less than the head and the bytes of the longest frame are kept.
pub fn little_is_kept_after_more()
    ensures { (old new : Reading) (count : ℕ) → Pulls old pull.More new → IsKept new count
        → count < HEAD_LEN + MAX_FRAME_BYTES }
{}

/// Before a frame is pulled, the frames left are those of the capture that was fed.
pub fn a_captures_frames_are_left()
    ensures { (text : List ℕ) (finished : Bool) (frames : List Frame)
        → AreLeft (record { spelling = None; place = 0; rest = text; finished = finished }) frames
        ↔ IsCapture text frames }
{}

/// Where frames are left, the first of them is pulled and the others are left.
pub fn the_first_frame_is_pulled()
    ensures { (old new : Reading) (answer : Pull) (frame : Frame) (frames : List Frame)
        → AreLeft old (frame ∷ frames) → Pulls old answer new
        → (answer ≡ pull.Frame frame) × AreLeft new frames }
{}

/// Where no frame is left and no more bytes come, the capture has ended.
pub fn end_comes_last()
    ensures { (old new : Reading) (answer : Pull)
        → (old.finished ≡ true) → AreLeft old [] → Pulls old answer new → answer ≡ pull.End }
{}

/// A frame that is pulled was the first of those left: none is made up.
pub fn a_pulled_frame_was_left()
    ensures { (old new : Reading) (frame : Frame) (frames : List Frame)
        → Pulls old (pull.Frame frame) new → AreLeft new frames → AreLeft old (frame ∷ frames) }
{}

// All calls of a reader, in whatever pieces a text is fed.

/// Of the bytes fed, in whatever pieces, a reader gives the frames: with the next one they are those
/// of a capture that the bytes begin with, at the end those of the bytes, and at a fault those
/// before it, whatever more might have been fed. Where more bytes are wanted and none came, the
/// capture would have ended or be torn.
pub fn pulls_are_of_the_bytes_fed()
    ensures frame { (calls : List Call) (reading next : Reading) (frame : Frame)
        → Lead calls unfed_reading reading → Pulls reading (pull.Frame frame) next
        → (used : List ℕ) × (bytes_fed_by calls ≡ used ++ next.rest)
        × IsCapture used (frames_given_by calls ++ frame ∷ []) }
    ensures more { (calls : List Call) (reading next : Reading)
        → Lead calls unfed_reading reading → Pulls reading pull.More next
        → IsCapture (bytes_fed_by calls) (frames_given_by calls)
        ⊎ ((at : ℕ) × IsCaptureUpTo (bytes_fed_by calls) (frames_given_by calls) (Torn at)) }
    ensures end { (calls : List Call) (reading next : Reading)
        → Lead calls unfed_reading reading → Pulls reading pull.End next
        → IsCapture (bytes_fed_by calls) (frames_given_by calls) }
    ensures bad { (calls : List Call) (reading next : Reading) (fault : PcapFault) (more : List ℕ)
        → Lead calls unfed_reading reading → Pulls reading (pull.Bad fault) next
        → (reading.finished ≡ true → more ≡ [])
        → IsCaptureUpTo (bytes_fed_by calls ++ more) (frames_given_by calls) fault }
{}

/// Of a capture that was fed, the frames that were not given yet are left.
pub fn frames_not_given_are_left()
    ensures { (calls : List Call) (reading : Reading) (frames : List Frame)
        → Lead calls unfed_reading reading → IsCapture (bytes_fed_by calls) frames
        → (others : List Frame) × (frames ≡ frames_given_by calls ++ others) × AreLeft reading others }
{}

/// What is left to a reader depends on the bytes fed and on how many frames were given: not on the
/// pieces in which they were fed, nor on when frames were pulled.
pub fn pieces_do_not_matter()
    ensures { (calls others : List Call) (reading other : Reading)
        → Lead calls unfed_reading reading → Lead others unfed_reading other
        → bytes_fed_by calls ≡ bytes_fed_by others → length (frames_given_by calls) ≡ length (frames_given_by others)
        → reading.finished ≡ other.finished
        → (frames_given_by calls ≡ frames_given_by others) × (reading ≡ other) }
{}
