//! Laws of the definitions that the contracts of this crate speak of.
ghost use Rattle.std.specs.Prelude.{◌≡◌, ◌≤◌, ◌↔◌, ◌++◌, ℕ, List, Some, length, map, true, cond};
ghost use Rattle.std.specs.List.{AllByRecursion};
ghost use Rattle.crs_base.specs.Lines.{Line, bytes_of, is_long, line_limit};
ghost use Rattle.crs_base.specs.Symbols.{is_known};
ghost use Rattle.crs_log.specs.Items.{Item, Event, IsItem};
ghost use Rattle.crs_log.specs.ItemOf.{item_of, what_of};
ghost use Rattle.crs_log.specs.Known.{Named, known_of};
ghost use Rattle.crs_log.specs.SeenNames.{name_seen, AreNamesIn};
ghost use Rattle.crs_log.specs.Reading.{Given, Reader, HasGiven, HasNoLine, given_line, given_lines, numbered, whole_lines};
ghost use Rattle.crs_log.specs.Recognitions.{Stays, view_of};
ghost use Rattle.crs_log.specs.Run.{Setting, State, Refused, TooLong, after_line, after_lines, after_what, at_start};
ghost use Rattle.crs_model.specs.declared.models.Name.{Name as CodeName};

/// A line is the item that the run reads from it, and no other.
pub fn one_item()
    ensures { (line : List ℕ) (item : Item) → item_of line ≡ Some item ↔ IsItem line item }
{}

/// Where no whole line is held, exactly the whole lines of what was fed were given.
pub fn prompt()
    ensures { (limit : ℕ) (fed : List ℕ) (told : List Given) (r : Reader) → HasGiven limit fed told r → HasNoLine r → told ≡ given_lines limit 0 (whole_lines fed) }
{}

/// What is given for a line of a log decides what becomes of it: a long one is refused, and another
/// one becomes what its bytes are.
pub fn given_lines_suffice()
    ensures { (setting : Setting) (state : State) (n : ℕ) (line : Line) → after_line setting state (given_line line_limit n line) ≡ cond (is_long line) (state, Refused TooLong) (after_what setting state (what_of (bytes_of line))) }
{}

/// Of an event whose name is declared, with the right arguments and value, an entry can be made: its
/// name is in the table, and it has at most 8 arguments.
pub fn named_events_fit()
    ensures { (texts : List (List ℕ)) (names : List CodeName) (e : Event) (place : ℕ) → AreNamesIn texts names → AllByRecursion (λ n. n.arity ≤ 8) names → known_of (map (name_seen texts) names) e ≡ Named place → (is_known texts e.name ≡ true) × (length e.args ≤ 8) }
{}

/// What is settled behind some lines of a log stays settled behind any further ones, and what is
/// recognised there stays recognised, of prompt chronicles too.
pub fn recognitions_stay()
    ensures { (c : Setting) (texts : List (List ℕ)) (lines : List Line) (more : List Line) → Stays (view_of (after_lines c (at_start texts) (numbered lines))) (view_of (after_lines c (at_start texts) (numbered (lines ++ more)))) }
{}
