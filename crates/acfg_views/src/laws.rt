//! Laws of the files. Each is what a function without parameters and without work ensures, so
//! that a caller gets the fact by a call.

ghost use Rattle.std.specs.Prelude.{◌≡◌, ◌++◌, ℕ, List, Ok};
ghost use Rattle.std.specs.Bool.{Decides};
ghost use Rattle.acfg_base.specs.Names.{IsContainer, IsName, IsPackage};
ghost use Rattle.acfg_views.specs.Fields.{IsBytes};
ghost use Rattle.acfg_views.specs.Layout.{Package, Flag, package_node, flag_node, IsPackageNode, IsFlagNode};
ghost use Rattle.acfg_views.specs.Layout.{package_map_type, flag_map_type, flag_val_type, flag_info_type};
ghost use Rattle.acfg_views.specs.Parts.{MapPartsOpen, OpenMapHasParts, ListPartsOpen, OpenListHasParts};
ghost use Rattle.acfg_views.specs.Reading.{package_at, flag_at};
ghost use Rattle.acfg_views.specs.Tests.{is_container, is_name, is_package};

/// The file of parts opens, and what was opened has these parts.
pub fn parts_open()
    ensures packages { MapPartsOpen package_map_type package_node IsPackageNode }
    ensures flags { MapPartsOpen flag_map_type flag_node IsFlagNode }
    ensures values { ListPartsOpen flag_val_type }
    ensures infos { ListPartsOpen flag_info_type }
{}

/// Bytes that open, and whose nodes stand to their end, are the file of their parts: each byte of them.
pub fn what_opens_is_spelled()
    ensures packages { OpenMapHasParts package_map_type package_node IsPackageNode }
    ensures flags { OpenMapHasParts flag_map_type flag_node IsFlagNode }
    ensures values { OpenListHasParts flag_val_type }
    ensures infos { OpenListHasParts flag_info_type }
{}

/// A node that is read is the one that is spelled, and a lawful node that is spelled is read.
pub fn nodes_are_spelled()
    ensures package_found { (bytes : List ℕ) (node : Package) (rest : List ℕ) → IsBytes bytes
        → package_at bytes ≡ Ok (node, rest) → (bytes ≡ package_node node ++ rest) × IsPackageNode node }
    ensures package_again { (node : Package) (rest : List ℕ) → IsPackageNode node
        → package_at (package_node node ++ rest) ≡ Ok (node, rest) }
    ensures flag_found { (bytes : List ℕ) (node : Flag) (rest : List ℕ) → IsBytes bytes
        → flag_at bytes ≡ Ok (node, rest) → (bytes ≡ flag_node node ++ rest) × IsFlagNode node }
    ensures flag_again { (node : Flag) (rest : List ℕ) → IsFlagNode node
        → flag_at (flag_node node ++ rest) ≡ Ok (node, rest) }
{}

/// The tests of names by which a reader goes on are the names.
pub fn lawful_names()
    ensures container { (text : List ℕ) → Decides (is_container text) (IsContainer text) }
    ensures package_name { (text : List ℕ) → Decides (is_package text) (IsPackage text) }
    ensures name { (text : List ℕ) → Decides (is_name text) (IsName text) }
{}
