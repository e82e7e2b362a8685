//! Laws of plans: of the keys that a lock set asks for in a state, each in the join of its modes.

ghost use Rattle.std.specs.Prelude.{◌≡◌, Bool, true, List, []};
ghost use Rattle.sect_lemmas.specs.Lists.{Has};
ghost use Rattle.sect_types.specs.{Store.{StoreView}, declared.meaning.store.Datum.{Datum}};
ghost use Rattle.sect_modes.specs.{declared.key.Key.{Key}, declared.mode.Mode.{Mode}};
ghost use Rattle.sect_names.specs.{declared.lock.Lock.{Lock}, Schemes.{SchemeView, IsScheme}};
ghost use Rattle.sect_emit.specs.{declared.plan.Grip.{Grip}, Plan.{IsFixedPart, plan_of, Ascends}};
ghost use Rattle.sect_emit.specs.PlanLaws.{IsWish, Gives, BeginsWithAll, IsKeptByJoins, HoldsTheWhole};

/// A plan has its keys in key order, each once.
pub fn plans_ascend()
    ensures { (s : SchemeView) (locks : List Lock) (part : List Grip) → IsFixedPart s locks part
        → (store : StoreView) (locals : List Datum) → Ascends (plan_of part locks store locals) }
{}

/// The plan of a set that has a lock begins with `all`; that of an empty set is empty.
pub fn plans_begin_with_all()
    ensures first { (s : SchemeView) (locks : List Lock) (part : List Grip) → IsFixedPart s locks part
        → (store : StoreView) (locals : List Datum) (l : Lock) → Has locks l
        → BeginsWithAll (plan_of part locks store locals) }
    ensures none { (s : SchemeView) (part : List Grip) → IsFixedPart s [] part
        → (store : StoreView) (locals : List Datum) → plan_of part [] store locals ≡ [] }
{}

/// A plan has each key that a lock of the set asks for, at least as strongly.
pub fn plans_meet_wishes()
    ensures { (s : SchemeView) → IsScheme s → (locks : List Lock) (part : List Grip) → IsFixedPart s locks part
        → (store : StoreView) (locals : List Datum) (g : Grip) → IsWish s locks store locals g
        → Gives (plan_of part locks store locals) g.key g.mode }
{}

/// What passes for each key that a lock of the set asks for, and is kept by joins, passes for each key of the plan.
pub fn plans_pass_the_tests_of_wishes()
    ensures { (s : SchemeView) (locks : List Lock) (part : List Grip) → IsFixedPart s locks part
        → (store : StoreView) (locals : List Datum) (test : Key → Mode → Bool) → IsKeptByJoins test
        → ((g : Grip) → IsWish s locks store locals g → test g.key g.mode ≡ true)
        → (g : Grip) → Has (plan_of part locks store locals) g → test g.key g.mode ≡ true }
{}

/// With an object a plan has its class, and with a class it has `all`, each in at least the intention of the mode; an
/// object's mode is S or X.
pub fn plans_hold_the_whole()
    ensures { (s : SchemeView) (locks : List Lock) (part : List Grip) → IsFixedPart s locks part
        → (store : StoreView) (locals : List Datum)
        → HoldsTheWhole s locks store locals (plan_of part locks store locals) }
{}
