//! What the definitions mean in the format's terms: each function's contract is a law, and its body does nothing.

ghost use Rattle.std.specs.Prelude.{◌≡◌, ◌↔◌, ◌⊎◌, ◌++◌, Contains, ◌∷◌, [], ℕ, Bool, true, false, List, Option, Some, None, Ok, Err, codes, map, unwrap_or};
ghost use Rattle.sby_terms.specs.declared.names.Mode.{Mode};
ghost use Rattle.sby_terms.specs.declared.names.Status.{Status};
ghost use Rattle.sby_terms.specs.declared.span.Span.{Span};
ghost use Rattle.sby_task.specs.Blocks.{IsKept};
ghost use Rattle.sby_file.specs.Config.{ConfigOf};
ghost use Rattle.sby_file.specs.Sby.{SbyText};
ghost use Rattle.sby_task.specs.Engines.{engine_of};
ghost use Rattle.sby_task.specs.Expand.{Expand, expansion};
ghost use Rattle.sby_task.specs.Faulty.{AreSound, IsFirstFault, IsThere};
ghost use Rattle.sby_task.specs.Files.{part_of};
ghost use Rattle.sby_task.specs.Paths.{IsLastPart};
ghost use Rattle.sby_task.specs.Said.{AreKept, AreRefused, HasDesign, IsSet, IsUnset, LacksMarks, SaysMode, SaysSpan, engine_lines, script_lines};
ghost use Rattle.sby_task.specs.Scope.{kept, rest_of};
ghost use Rattle.sby_task.specs.Values.{mode_of, number_of, statuses_of, switch_of};
ghost use Rattle.sby_file.specs.declared.config.Row.{Row};
ghost use Rattle.sby_task.specs.declared.expansion.Task.{Task};
ghost use Rattle.sby_file.specs.declared.section.Section.{Section};
ghost use Rattle.sby_task.specs.declared.task_fault.TaskFault.{TaskFault};
ghost use Rattle.sby_task.specs.declared.task_fault.TaskKind.{TaskKind};

use sby_terms::addresses_are_told;

/// A path's name is its part after the last `/`.
pub fn paths_end_in_names()
    ensures { (path part : List ℕ) → (part_of path ≡ part) ↔ IsLastPart path part }
{}

/// The lines that hold for a task of these names, line by line: a line is kept, without its prefix, where its prefix holds and the
/// last line before it that opens or ends a block, if there is one, ends it or holds. A line that opens or ends a block isn't kept.
pub fn lines_that_hold_are_kept()
    ensures none { (is_here : List ℕ → Bool) → kept is_here true [] ≡ [] }
    ensures kept { (is_here : List ℕ → Bool) (before : List Row) (row : Row) → IsKept is_here before row
        → kept is_here true (before ++ row ∷ []) ≡ kept is_here true before ++ rest_of row ∷ [] }
    ensures dropped { (is_here : List ℕ → Bool) (before : List Row) (row : Row) → (IsKept is_here before row → ⊥)
        → kept is_here true (before ++ row ∷ []) ≡ kept is_here true before }
{}

/// A task has the name that is asked for. Its options are what one line sets of those that are kept for it, or the default where
/// none does, and its engines are those of the kept lines of `[engines]`, in file order.
pub fn kept_lines_say_the_task()
    ensures name { (c : ConfigOf) (asked : Option (List ℕ)) (t : Task) (rows : List Row) → Expand c asked t → AreKept c asked rows
        → t.name ≡ unwrap_or asked [] }
    ensures mode { (c : ConfigOf) (asked : Option (List ℕ)) (t : Task) (rows : List Row) → Expand c asked t → AreKept c asked rows
        → SaysMode rows t.mode }
    ensures span { (c : ConfigOf) (asked : Option (List ℕ)) (t : Task) (rows : List Row) → Expand c asked t → AreKept c asked rows
        → SaysSpan rows t.span }
    ensures timeout { (c : ConfigOf) (asked : Option (List ℕ)) (t : Task) (rows : List Row) → Expand c asked t → AreKept c asked rows
        → ((n : ℕ) × (t.timeout ≡ Some n) × IsSet (codes "timeout") (λ value. number_of 1000000 value ≡ Some n) rows)
        ⊎ (IsUnset (codes "timeout") rows × (t.timeout ≡ None)) }
    ensures expect { (c : ConfigOf) (asked : Option (List ℕ)) (t : Task) (rows : List Row) → Expand c asked t → AreKept c asked rows
        → IsSet (codes "expect") (λ value. statuses_of value ≡ Some t.expect) rows
        ⊎ (IsUnset (codes "expect") rows × (t.expect ≡ Status.Pass ∷ [])) }
    ensures wait { (c : ConfigOf) (asked : Option (List ℕ)) (t : Task) (rows : List Row) → Expand c asked t → AreKept c asked rows
        → IsSet (codes "wait") (λ value. switch_of value ≡ Some t.wait) rows ⊎ (IsUnset (codes "wait") rows × (t.wait ≡ false)) }
    ensures engines { (c : ConfigOf) (asked : Option (List ℕ)) (t : Task) (rows : List Row) → Expand c asked t → AreKept c asked rows
        → map engine_of (engine_lines rows) ≡ map Ok t.engines }
{}

/// Slices is answered, at line 0, only where the options give cycles that no task has, and a task never has them.
pub fn slices_are_refused()
    ensures refused { (c : ConfigOf) (asked : Option (List ℕ)) (line : ℕ) (rows : List Row)
        → expansion c asked ≡ Err (record { line = line; kind = TaskKind.Slices }) → AreKept c asked rows
        → (line ≡ 0) × ((mode : Mode) × (span : Span) × IsSet (codes "mode") (λ value. mode_of value ≡ Some mode) rows
        × SaysSpan rows span × AreRefused rows mode span) }
    ensures served { (c : ConfigOf) (asked : Option (List ℕ)) (t : Task) (rows : List Row) → Expand c asked t → AreKept c asked rows
        → AreRefused rows t.mode t.span → ⊥ }
{
    addresses_are_told();
}

/// Marks is answered only for a kept engine line whose program writes a proof file and on which the marks don't stand once each, and
/// no such line is kept for a task.
pub fn marks_are_asked_for()
    ensures refused { (c : ConfigOf) (asked : Option (List ℕ)) (line : ℕ) (rows : List Row)
        → expansion c asked ≡ Err (record { line = line; kind = TaskKind.Marks }) → AreKept c asked rows
        → (row : Row) × Contains rows row × (row.number ≡ line) × (row.section ≡ Section.Engines) × LacksMarks row.words }
    ensures served { (c : ConfigOf) (asked : Option (List ℕ)) (t : Task) (rows : List Row) → Expand c asked t → AreKept c asked rows
        → (row : Row) → Contains rows row → row.section ≡ Section.Engines → LacksMarks row.words → ⊥ }
{
    addresses_are_told();
}

/// Of the lines that are kept for a task one is of the script, and names the design: a file that stands in the text, or else that of
/// the last line of `[files]` with that name.
pub fn script_names_the_design()
    ensures { (c : ConfigOf) (asked : Option (List ℕ)) (t : Task) (rows : List Row) → Expand c asked t → AreKept c asked rows
        → (name : List ℕ) × (script_lines rows ≡ (codes "read_rtlil" ∷ name ∷ []) ∷ []) × HasDesign c.files rows name t }
{}

/// A task that is asked for is there where the file has one of this name, or, without a name, where it has none; any other is
/// answered with UnknownTask, at line 0.
pub fn other_tasks_are_unknown()
    ensures there { (bytes : List ℕ) (c : ConfigOf) (asked : Option (List ℕ)) → SbyText bytes c → IsThere c.tasks asked
        → (rows : List Row) × AreKept c asked rows }
    ensures unknown { (c : ConfigOf) (asked : Option (List ℕ)) → (IsThere c.tasks asked → ⊥)
        → expansion c asked ≡ Err (record { line = 0; kind = TaskKind.UnknownTask }) }
{}

/// The fault of a task that is there is the first: of the first kept line at fault, the first kind, each by what stands in the line,
/// in the lines kept before it and in the files; or, where no kept line is at fault, the first of what is missing from all of them, at
/// line 0.
pub fn first_fault_is_answered()
    ensures { (c : ConfigOf) (asked : Option (List ℕ)) (fault : TaskFault) (rows : List Row)
        → expansion c asked ≡ Err fault → AreKept c asked rows → IsFirstFault c.files rows fault }
{
    addresses_are_told();
}

/// No line that is kept for a task is at fault.
pub fn kept_lines_are_sound()
    ensures { (c : ConfigOf) (asked : Option (List ℕ)) (t : Task) (rows : List Row) → Expand c asked t → AreKept c asked rows
        → AreSound c.files rows rows }
{
    addresses_are_told();
}
