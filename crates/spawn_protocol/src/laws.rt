// Laws of the texts of requests and of reports: contracts of functions that do nothing.
ghost use Rattle.std.specs.Prelude.{◌≡◌, ◌↔◌, ◌++◌, ◌∷◌, [], ℕ, List, All};
ghost use Rattle.spawn_protocol.specs.Cut as cut;
ghost use Rattle.spawn_protocol.specs.Request as request;
ghost use Rattle.spawn_protocol.specs.Report as report;
ghost use Rattle.spawn_protocol.specs.declared.request.Request.{Request};
ghost use Rattle.spawn_protocol.specs.declared.report.Report.{Report};

/// Bytes are requests in one way alone, and a field that was too long is so whatever follows.
pub fn requests_are_exact()
    // Any bytes are whole requests and the start of one more, or have a field that is too long.
    ensures some { (bytes : List ℕ) → (requests : List Request) × (reader : request.Reader) × request.HasRead bytes requests reader }
    ensures one { (bytes : List ℕ) (requests others : List Request) (reader other : request.Reader) →
        request.HasRead bytes requests reader → request.HasRead bytes others other → (requests ≡ others) × (reader ≡ other) }
    ensures refused { (bytes more : List ℕ) (requests others : List Request) (start : request.Start) →
        request.IsTooLong bytes requests → ¬ (request.IsText (bytes ++ more) others start) }
    // What was read is what a reader can give.
    ensures given { (bytes : List ℕ) (requests : List Request) (reader : request.Reader) →
        request.HasRead bytes requests reader → All request.IsRequest requests }
    // The text of a request that a reader can give is read back, whatever follows it.
    ensures back { (r : Request) (more : List ℕ) (requests : List Request) (reader : request.Reader) →
        request.IsRequest r → request.HasRead more requests reader → request.HasRead (request.request_text r ++ more) (r ∷ requests) reader }
{}

/// The first request of some bytes is found exactly if it is whole.
pub fn cuts_are_requests()
    ensures whole { (bytes rest : List ℕ) (r : Request) →
        cut.cut bytes ≡ cut.Cut.Whole r rest ↔ (request.IsRequest r × (bytes ≡ request.request_text r ++ rest)) }
    // Else they are the start of one at most, or one with a field that is too long.
    ensures more { (bytes : List ℕ) → cut.cut bytes ≡ cut.Cut.More ↔ ((start : request.Start) × request.IsText bytes [] start) }
    ensures long { (bytes : List ℕ) → cut.cut bytes ≡ cut.Cut.TooLong ↔ request.IsTooLong bytes [] }
{}

/// Bytes are reports in one way alone.
pub fn reports_are_exact()
    // What a reader tells that takes one byte after the other is just that.
    ensures read { (bytes : List ℕ) (reports : List Report) (reader : report.Reader) →
        report.HasRead bytes reports reader → report.read_on report.Reader.AtBegin bytes ≡ (reports, reader) }
    // Any bytes are whole reports and the start of one more.
    ensures some { (bytes : List ℕ) → (reports : List Report) × (reader : report.Reader) × report.HasRead bytes reports reader }
    ensures one { (bytes : List ℕ) (reports others : List Report) (reader other : report.Reader) →
        report.HasRead bytes reports reader → report.HasRead bytes others other → (reports ≡ others) × (reader ≡ other) }
    // The text of a report that a reader can give is read back, whatever follows it.
    ensures back { (r : Report) (more : List ℕ) (reports : List Report) (reader : report.Reader) →
        report.IsKept r → report.HasRead more reports reader → report.HasRead (report.report_text r ++ more) (r ∷ reports) reader }
    // Of a longer one what is kept is read.
    ensures cut { (r : Report) (more : List ℕ) (reports : List Report) (reader : report.Reader) →
        report.IsReport r → report.HasRead more reports reader → report.HasRead (report.report_text r ++ more) (report.kept r ∷ reports) reader }
    // What was read is what a reader can give.
    ensures kept { (bytes : List ℕ) (reports : List Report) (reader : report.Reader) →
        report.HasRead bytes reports reader → All report.IsKept reports }
{}
