// What holds of the lines of a task. Each law stands over the definitions alone, and its body is empty.

ghost use Rattle.std.specs.Prelude.{◌≡◌, ◌≢◌, ℕ, List, Option, None, Some, Contains, slice_get};
ghost use Rattle.judge.specs.Finding.{FindingOf};
ghost use Rattle.race_core.specs.Asking.{name_at};
ghost use Rattle.race_core.specs.Collect.{HasFinding};
ghost use Rattle.race_core.specs.Report.{ReportOf};
ghost use Rattle.sby_terms.specs.declared.names.Mode.{Mode};
ghost use Rattle.sby_lines.specs.Shown.{ShowsBreak, ShowsStatement};
ghost use Rattle.design_core.specs.Shape.{DesignOf};
ghost use Rattle.design_reader.specs.Grammar.{Reads};
ghost use Rattle.sby_terms.specs.Code.{HasCode};
ghost use Rattle.sby_lines.specs.declared.early.Early.{Early};
ghost use Rattle.sby_terms.specs.declared.names.Answer.{Answer};
ghost use Rattle.sby_terms.specs.declared.names.Mode.TheVariants.{Cover};
ghost use Rattle.sby_terms.specs.declared.names.Status.{Status};
ghost use Rattle.sby_terms.specs.declared.names.Status.TheVariants.{Fail};
ghost use Rattle.sby_lines.specs.Lines.{HasJobLines, HasLines, IsStatus};
ghost use Rattle.sby_lines.specs.Told.{AreInPlace, AreAnswers, AreLimited, AreReported, CameTo, came, IsPrintedFinding, IsRaceStatus, Request, WinnersHaveFindings, job_of};

/// Where a report carries a finding for the job at a place, one is printed.
pub fn printed_finding_exists()
    ensures { (mode : Mode) (reports : List (ReportOf FindingOf)) (place : ℕ) → AreInPlace reports → WinnersHaveFindings mode reports → (r : ReportOf FindingOf) → Contains reports r
        → HasFinding job_of (name_at mode place) r → (f : FindingOf) × IsPrintedFinding mode reports place f }
{}

/// The lines of a design and its jobs exist, whatever its lanes reported.
pub fn job_lines_exist()
    ensures { (request : Request) (c : CameTo) (status : Status) → AreReported request.mode request.span c.design c.reports → AreLimited c.start request.limit c.reports
        → IsRaceStatus request c status → (lines : List (List ℕ)) × HasJobLines request c status lines }
{}

/// There is one list of them.
pub fn job_lines_are_one()
    ensures { (request : Request) (c : CameTo) (status : Status) (a b : List (List ℕ)) → AreReported request.mode request.span c.design c.reports
        → HasJobLines request c status a → HasJobLines request c status b → a ≡ b }
{}

/// All lines of a task exist, with a fault before its lanes or without.
pub fn lines_exist()
    ensures { (request : Request) (text : List ℕ) (early : Option Early) (design : DesignOf) (reports : List (ReportOf FindingOf)) (start : Option ℕ) (unput : List ℕ)
        (status : Status) (rc : ℕ) → (early ≡ None → Reads text design × AreReported request.mode request.span design reports × AreLimited start request.limit reports)
        → IsStatus request early (came design reports start) status → HasCode request.expect status rc
        → (lines : List (List ℕ)) × HasLines request text early reports start unput lines }
{}

/// FAIL of bmc and prove shows its run: the lines name the first assertion that it breaks, and have its trace.
pub fn fail_shows_its_run()
    ensures { (request : Request) (c : CameTo) (lines : List (List ℕ)) → AreReported request.mode request.span c.design c.reports → request.mode ≢ Cover
        → IsRaceStatus request c Fail → HasJobLines request c Fail lines → (answers : List (Option Answer)) × AreAnswers request c answers × ShowsBreak request c answers lines }
{}

/// Each settled job of cover shows its statement: that it is reached, and by which run; or that it isn't.
pub fn settled_statement_is_shown()
    ensures { (request : Request) (c : CameTo) (status : Status) (answers : List (Option Answer)) (lines : List (List ℕ)) (place : ℕ) (answer : Answer)
        → AreReported request.mode request.span c.design c.reports → request.mode ≡ Cover → AreAnswers request c answers → HasJobLines request c status lines
        → slice_get answers place ≡ Some (Some answer) → ShowsStatement request c place answer lines }
{}
