//! Laws of the directory. Each is what a function without parameters and without work ensures, so that a caller gets
//! the fact by a call.

ghost use Rattle.std.specs.Prelude.{◌≡◌, ℕ, List, [], None, Contains};
ghost use Rattle.std.specs.FinMap.{empty};
ghost use Rattle.acfg_base.specs.Places.{AreInOrder};
ghost use Rattle.acfg_device.specs.Left.{IsEither};
ghost use Rattle.acfg_device.specs.Panel.{Files};
ghost use Rattle.acfg_images.specs.declared.fault.FileType.{FileType};
ghost use Rattle.acfg_store.specs.declared.names.Part.{Part};
ghost use Rattle.acfg_store.specs.declared.names.Part.TheVariants.{Records};
ghost use Rattle.acfg_model.specs.State.{State, name_cmp};
ghost use Rattle.acfg_store.specs.declared.locals.LocalOverride.{LocalOverride};
ghost use Rattle.acfg_store.specs.declared.records.Recorded.{Recorded};
ghost use Rattle.acfg_store.specs.Commits.{ChangesOne, IsCommit, IsEitherState, LeavesState};
ghost use Rattle.acfg_store.specs.Damage.{HoldBytes, IsDamaged};
ghost use Rattle.acfg_store.specs.Names.{path, source_path};
ghost use Rattle.acfg_store.specs.Records.{SpellsLocals, SpellsRecords};
ghost use Rattle.acfg_store.specs.Stands.{Entry, IsUsed, Lies, Stands, Uses, entry_name};

/// Two names that are one are of one part, and within a directory of one container; and none of them is the name of a
/// storage file in a folder, whatever the folder.
pub fn names_are_apart()
    ensures parts { (dir other container another : List ℕ) (k l : Part) → path dir container k ≡ path other another l
        → k ≡ l }
    ensures containers { (dir container another : List ℕ) (part : Part)
        → path dir container part ≡ path dir another part → container ≡ another }
    ensures sources { (folder dir container : List ℕ) (file : FileType) (part : Part)
        → source_path folder file ≡ path dir container part → ⊥ }
{}

/// Bytes list containers in at most one way, and local overrides too.
pub fn one_reading()
    ensures records { (bytes : List ℕ) (rows all : List Recorded) → SpellsRecords bytes rows → SpellsRecords bytes all
        → rows ≡ all }
    ensures locals { (bytes : List ℕ) (rows all : List LocalOverride) → SpellsLocals bytes rows
        → SpellsLocals bytes all → rows ≡ all }
{}

/// Files that agree on the names that a directory uses hold the same containers there, and stand for the same state:
/// what all other files hold counts for nothing.
pub fn other_files_are_free()
    ensures lie { (before after : Files) (dir : List ℕ) (entries : List Entry)
        → ((name : List ℕ) → IsUsed dir entries name → after name ≡ before name)
        → Lies before dir entries → Lies after dir entries }
    ensures stand { (before after : Files) (dir : List ℕ) (state : State) (stands : Stands before dir state)
        → ((name : List ℕ) → IsUsed dir stands.entries name → after name ≡ before name) → Stands after dir state }
{}

/// Files stand for at most one state.
pub fn one_state()
    ensures { (files : Files) (dir : List ℕ) (a b : State) → Stands files dir a → Stands files dir b → a ≡ b }
{}

/// There is one first file at fault at most, and none where the files stand for a state.
pub fn one_damage()
    ensures one { (files : Files) (dir a b : List ℕ) → IsDamaged files dir a → IsDamaged files dir b → a ≡ b }
    ensures none { (files : Files) (dir : List ℕ) (state : State) (name : List ℕ) → Stands files dir state
        → IsDamaged files dir name → ⊥ }
{}

/// Where files stand for no state, there is a first file at fault.
pub fn some_damage()
    ensures { (files : Files) (dir : List ℕ) → HoldBytes files → ((state : State) → Stands files dir state → ⊥)
        → ((name : List ℕ) → IsDamaged files dir name → ⊥) → ⊥ }
{}

/// A directory without a list of containers stands for the empty state.
pub fn nothing_stands()
    ensures { (files : Files) (dir : List ℕ) → files (path dir [] Records) ≡ None → Stands files dir empty }
{}

/// A cut of power within a commit leaves the old state or the new one, and no word said; files that aren't the
/// directory's are as before. What the moves of a device say of their cuts is the premise.
pub fn commits_leave_states()
    ensures { (dir : List ℕ) (entries later : List Entry) (spare : List (List ℕ)) (first new : Files)
        (spoken : List ℕ) (files : Files) (said : List ℕ) → IsCommit dir entries later (Contains spare) first new
        → IsEither first spoken (Contains spare) new files said
        → LeavesState first spoken dir (IsEitherState entries later) files said }
{}

/// Containers lie in a directory with one of them changed where the list has it, the new files hold it, and the used
/// files of all others are as they were.
pub fn one_container_changes()
    ensures { (dir : List ℕ) (entries later : List Entry) (entry : Entry) (first new : Files)
        → Lies first dir entries → ChangesOne dir entries later entry first new → Lies new dir later }
{}

/// A container's parts that it doesn't use have names that the directory doesn't use, and so have the parts of a
/// container that isn't there.
pub fn unused_names()
    ensures spare { (dir : List ℕ) (entries : List Entry) → AreInOrder name_cmp entry_name entries → (entry : Entry)
        → Contains entries entry → (part : Part) → (part ≡ Records → ⊥) → (Uses entry part → ⊥)
        → IsUsed dir entries (path dir entry.name part) → ⊥ }
    ensures absent { (dir : List ℕ) (entries : List Entry) (name : List ℕ)
        → ((entry : Entry) → Contains entries entry → entry.name ≡ name → ⊥) → (part : Part) → (part ≡ Records → ⊥)
        → IsUsed dir entries (path dir name part) → ⊥ }
{}
