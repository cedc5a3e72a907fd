//! The grammar's consequences, as laws.

ghost use Rattle.std.specs.Prelude.{◌≡◌, ◌≢◌, ◌<◌, ◌≤◌, ◌^◌, ◌↔◌, ℕ, List, Some, None, ◌++◌, ◌∷◌, [], length};
ghost use Rattle.std.specs.Fmt.{decimal};
ghost use Rattle.std.specs.List.{AllByRecursion};
ghost use Rattle.sm_wire.specs.Number.{parsed_number};
ghost use Rattle.sm_wire.specs.declared.item.Item.TheVariants as items;
ghost use Rattle.sm_wire.specs.declared.kind.Kind.{Kind};
ghost use Rattle.sm_wire.specs.declared.reload_header.ReloadHeader.{ReloadHeader};
ghost use Rattle.sm_wire.specs.declared.request.Request.{Request};
ghost use Rattle.sm_values.specs.declared.identity.Identity.{Identity};
ghost use Rattle.sm_values.specs.declared.number.ClientId.{ClientId};
ghost use Rattle.sm_history.specs.declared.event.Event.{Event};
ghost use Rattle.sm_wire.specs.declared.kind.Kind.TheVariants.{Script};
ghost use Rattle.sm_wire.specs.declared.request.Request.TheVariants.{Change, Hello, Reload};
ghost use Rattle.sm_wire.specs.Number.{u32_max};
ghost use Rattle.sm_wire.specs.ScriptLines.{change_text, hello_text, reload_text, FitsHello, FitsLine, FitsReload};
ghost use Rattle.sm_wire.specs.declared.item.Item.{Item};
ghost use Rattle.sm_wire.specs.Recording.{AreItems};
ghost use Rattle.sm_wire.specs.Grammar.{header_by, header_of, request_of};
ghost use Rattle.sm_wire.specs.Spelling.{Spells, SpellsNothing};
ghost use Rattle.sm_wire.specs.Items.{item_of, items_of, items_after, rest_of, scan_after};

/// A line that is no `reload` line, with its newline, gives its item, followed by the items of the rest.
pub fn first_line()
    ensures { (kind : Kind) (line rest : List ℕ) → AllByRecursion (λ b. b ≢ 10) line → length line ≤ 4096
        → header_of kind line ≡ None
        → items_of kind (line ++ 10 ∷ rest) ≡ item_of kind line ∷ items_of kind rest }
{}

/// A `reload` line, its newline and the two files that it announces, of any bytes, give one item, followed by the items
/// of the rest.
pub fn reload_line()
    ensures { (kind : Kind) (line rules contexts rest : List ℕ) (a : ReloadHeader) → AllByRecursion (λ b. b ≢ 10) line
        → length line ≤ 4096
        → header_of kind line ≡ Some a → a.rules ≡ length rules → a.contexts ≡ length contexts → length rules ≤ 4194304
        → length contexts ≤ 4194304
        → items_of kind (line ++ 10 ∷ (rules ++ contexts ++ rest))
        ≡ items.Policy (record { expected = a.expected; rules = rules; contexts = contexts }) ∷ items_of kind rest }
{}

/// A line is too long at its 4,097th byte, whatever follows, and no item comes after it.
pub fn long_line()
    ensures { (kind : Kind) (line rest : List ℕ) (b : ℕ) → AllByRecursion (λ c. c ≢ 10) line → length line ≡ 4096
        → b ≢ 10 → items_of kind (line ++ b ∷ rest) ≡ items.LineTooLong ∷ [] }
{}

/// A stream gives the same items, however it is split into pieces.
pub fn any_cut()
    ensures items { (kind : Kind) (xs ys : List ℕ)
        → items_of kind (xs ++ ys) ≡ items_of kind xs ++ items_after (rest_of kind xs) ys }
    ensures rest { (kind : Kind) (xs ys : List ℕ) → rest_of kind (xs ++ ys) ≡ scan_after (rest_of kind xs) ys }
{}

/// A number has one spelling, decimal and without leading zeros, and is read if it is at most `max`.
pub fn one_spelling()
    ensures { (max n : ℕ) (text : List ℕ) → max < 2 ^ 64
        → (parsed_number max text ≡ Some n) ↔ ((text ≡ decimal n) × (n ≤ max)) }
{}

/// Exactly the lines of the written grammar are read, each as the request that it spells. In a stream every other line
/// is malformed.
pub fn written_lines()
    ensures requests { (kind : Kind) (line : List ℕ) (request : Request)
        → (request_of kind line ≡ Some request) ↔ Spells kind line request }
    ensures items { (kind : Kind) (line : List ℕ) (request : Request)
        → (item_of kind line ≡ items.Asked request) ↔ Spells kind line request }
    ensures others { (kind : Kind) (line : List ℕ) → (item_of kind line ≡ items.Malformed) ↔ SpellsNothing kind line }
{}

/// No line spells two requests.
pub fn one_request()
    ensures { (kind : Kind) (line : List ℕ) (a b : Request) → Spells kind line a → Spells kind line b → a ≡ b }
{}

/// The lines that are written for changes are lines of a script, and spell these changes.
pub fn change_lines()
    ensures changes { (client : ClientId) (event : Event) → client.0 ≤ u32_max → FitsLine event
        → Spells Script (change_text client event) (Change (Some client) event) }
    ensures hellos { (who : Identity) → FitsHello who → Spells Script (hello_text who) (Hello who) }
    ensures reloads { (expected : ℕ) (rules contexts : List ℕ) → FitsReload expected rules contexts
        → Spells Script (reload_text expected rules contexts) (Reload expected (length rules) (length contexts)) }
{}

/// The bytes of a line of a script and its newline are its item, whatever follows. So are a `reload` line and its files.
/// Bytes that are some items and bytes that are others are together all of them.
pub fn recorded_lines()
    ensures lines { (line : List ℕ) (request : Request) → AllByRecursion (λ b. b ≢ 10) line → length line ≤ 4096
        → header_by (Some request) ≡ None → Spells Script line request
        → AreItems (line ++ 10 ∷ []) (items.Asked request ∷ []) }
    ensures reloads { (line rules contexts : List ℕ) (expected : ℕ) → AllByRecursion (λ b. b ≢ 10) line
        → length line ≤ 4096 → length rules ≤ 4194304 → length contexts ≤ 4194304
        → Spells Script line (Reload expected (length rules) (length contexts))
        → AreItems (line ++ 10 ∷ (rules ++ contexts))
        (items.Policy (record { expected = expected; rules = rules; contexts = contexts }) ∷ []) }
    ensures joined { (x y : List ℕ) (is js : List Item) → AreItems x is → AreItems y js
        → AreItems (x ++ y) (is ++ js) }
{}
