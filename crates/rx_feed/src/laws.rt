//! What the definitions of where a port stands imply, for every capture.
ghost use Rattle.std.specs.Prelude.{◌≡◌, ◌≢◌, ◌∷◌, ◌++◌, [], ℕ, List, Option, true, false, None, Some};
ghost use Rattle.onvm_base.specs.declared.frame.Frame.{Frame};
ghost use Rattle.onvm_host.specs.Deeds.{Amounts};
ghost use Rattle.pcap_in.specs.Classic.{IsCapture};
ghost use Rattle.pcap_in.specs.Faulty.{IsCaptureUpTo};
ghost use Rattle.pcap_in.specs.declared.pull.PcapFault.{PcapFault};
ghost use Rattle.pcap_in.specs.declared.pull.PcapFault.TheVariants.{Torn};
ghost use Rattle.rx_feed.specs.Limits.{IsSoundSoFar, IsWithinLimits, PassesLimit};
ghost use Rattle.rx_feed.specs.Standing.{HasStopped, IsStanding, IsTakenSince, Standing};
ghost use Rattle.rx_feed.specs.declared.fault.FeedFault.TheVariants.{Read, Capture, TooMany};

/// What stopped a port is what stands in the whole text that its source told: its end, the first
/// fault behind the frames that were pulled, a limit that the text passes, or a take that failed.
pub fn what_stopped_a_port_stands_in_its_capture()
    ensures ended { (left : Option (List ℕ)) (takes takes' : Amounts) (s : Standing) (text : List ℕ)
        → IsStanding s → IsTakenSince (Some text) left takes takes' s → s.ended ≡ true
        → IsCapture text s.pulled }
    ensures broken { (left : Option (List ℕ)) (takes takes' : Amounts) (s : Standing) (text : List ℕ)
        (fault : PcapFault)
        → IsStanding s → IsTakenSince (Some text) left takes takes' s → s.fault ≡ Some (Capture fault)
        → IsCaptureUpTo text s.pulled fault }
    ensures too_many { (left : Option (List ℕ)) (takes takes' : Amounts) (s : Standing) (text : List ℕ)
        → IsStanding s → IsTakenSince (Some text) left takes takes' s → s.fault ≡ Some TooMany
        → PassesLimit text }
    ensures read { (left left' : Option (List ℕ)) (takes takes' : Amounts) (s : Standing)
        → IsStanding s → IsTakenSince left left' takes takes' s → s.fault ≡ Some Read
        → (earlier : Amounts) × (takes' ≡ takes ++ (earlier ++ None ∷ [])) }
{}

/// Where no take failed, a port that has stopped pulled all frames of a capture within the limits,
/// or all before a text's fault and stopped at that fault, or met the limit that a text passes.
pub fn a_port_stops_where_its_capture_does()
    ensures ended { (left : Option (List ℕ)) (takes takes' : Amounts) (s : Standing) (text : List ℕ)
        (frames : List Frame)
        → IsStanding s → IsTakenSince (Some text) left takes takes' s → HasStopped s → s.fault ≢ Some Read
        → IsCapture text frames → IsWithinLimits frames
        → (s.ended ≡ true) × (s.pulled ≡ frames) }
    ensures broken { (left : Option (List ℕ)) (takes takes' : Amounts) (s : Standing) (text : List ℕ)
        (frames : List Frame) (fault : PcapFault)
        → IsStanding s → IsTakenSince (Some text) left takes takes' s → HasStopped s → s.fault ≢ Some Read
        → IsCaptureUpTo text frames fault → IsWithinLimits frames
        → (s.fault ≡ Some (Capture fault)) × (s.pulled ≡ frames) }
    ensures too_many { (left : Option (List ℕ)) (takes takes' : Amounts) (s : Standing) (text : List ℕ)
        → IsStanding s → IsTakenSince (Some text) left takes takes' s → HasStopped s → s.fault ≢ Some Read
        → PassesLimit text → s.fault ≡ Some TooMany }
{}

/// The first bytes of a text that are sound so far have no fault but that they end early, and they
/// pass no limit.
pub fn sound_so_far()
    ensures fault { (front : List ℕ) (frames : List Frame) (fault : PcapFault)
        → IsSoundSoFar front → IsCaptureUpTo front frames fault → (at : ℕ) × (fault ≡ Torn at) }
    ensures limit { (front : List ℕ) → IsSoundSoFar front → ¬ (PassesLimit front) }
{}
