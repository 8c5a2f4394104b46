//! Declarations and values compiled, in each of their spellings.

use acfg_base::{ContainerName, PackageName};
use acfg_decls::{
    CompileFault, DeclFault, DeclWhat, Declarations, Flags, compile, compile_own, read_container,
    read_declarations, read_values,
};
use acfg_text::TextWhat;
use std::alloc::Global;
use std::slice;
use std::test::Fail;

const TWO_FLAGS: &str = "package: \"c.a\" container: \"c\"
    flag { name: \"z\" namespace: \"n\" description: \"d\" bug: \"1\" metadata { purpose: PURPOSE_BUGFIX } }
    flag { name: \"a\" namespace: \"n\" description: \"d\" bug: \"2\" is_fixed_read_only: true }";

const FOUR_VALUES: &str = "
    flag_value { package: \"c.a\" name: \"z\" state: ENABLED permission: READ_ONLY }
    flag_value { package: \"c.b\" name: \"z\" state: DISABLED permission: READ_WRITE }
    flag_value { package: \"c.a\" name: \"z\" state: 1 permission: 0x2 }
    flag_value { package: \"c.a\" name: \"gone\" state: ENABLED permission: READ_WRITE }";

// Each accepted spelling of a bool, as that of a flag with `y` in front of its name where it is true.
const BOOLS: &str = "package: \"c.a\" container: \"c\"
    flag { name: \"ya\" namespace: \"n\" description: \"d\" bug: \"1\" is_fixed_read_only: true }
    flag { name: \"yb\" namespace: \"n\" description: \"d\" bug: \"1\" is_fixed_read_only: True }
    flag { name: \"yc\" namespace: \"n\" description: \"d\" bug: \"1\" is_fixed_read_only: t }
    flag { name: \"yd\" namespace: \"n\" description: \"d\" bug: \"1\" is_fixed_read_only: 1 }
    flag { name: \"ye\" namespace: \"n\" description: \"d\" bug: \"1\" is_fixed_read_only: 0x01 }
    flag { name: \"yf\" namespace: \"n\" description: \"d\" bug: \"1\" is_fixed_read_only: 01 }
    flag { name: \"na\" namespace: \"n\" description: \"d\" bug: \"1\" is_fixed_read_only: false }
    flag { name: \"nb\" namespace: \"n\" description: \"d\" bug: \"1\" is_fixed_read_only: False }
    flag { name: \"nc\" namespace: \"n\" description: \"d\" bug: \"1\" is_fixed_read_only: f }
    flag { name: \"nd\" namespace: \"n\" description: \"d\" bug: \"1\" is_fixed_read_only: 0 }
    flag { name: \"ne\" namespace: \"n\" description: \"d\" bug: \"1\" is_fixed_read_only: 00 }";

const FAULTS: [(&str, usize, DeclWhat); 13] = [
    ("", 0, DeclWhat::MissingField),
    (
        "package: \"c.a\" # x\n!",
        19,
        DeclWhat::Text(TextWhat::BadByte),
    ),
    ("package: \"c.a\" flags: 1", 15, DeclWhat::UnknownField),
    ("flags: 1 package: \"c.a\"", 0, DeclWhat::UnknownField),
    (
        "flags: 1 package: }",
        18,
        DeclWhat::Text(TextWhat::Unexpected),
    ),
    (
        "package: \"c.a\" package: \"c.a\"",
        15,
        DeclWhat::TwiceGiven,
    ),
    ("package: [\"c.a\"]", 0, DeclWhat::TwiceGiven),
    ("package: com", 0, DeclWhat::BadScalar),
    (
        "package: \"c.a\" flag { name: \"f\" }",
        32,
        DeclWhat::MissingField,
    ),
    ("flag { is_exported: TRUE }", 7, DeclWhat::BadScalar),
    ("flag { is_exported: 2 }", 7, DeclWhat::BadScalar),
    ("flag { is_exported: 1.0 }", 7, DeclWhat::BadScalar),
    ("flag { is_exported: \"true\" }", 7, DeclWhat::BadScalar),
];

// Two flags with their values.
fn set_flags(alloc: Global) -> Option<Flags> {
    let Ok(Some(package)) = PackageName::parse(alloc, "c.a") else {
        return None;
    };
    let Ok(Some(container)) = ContainerName::parse(alloc, "c") else {
        return None;
    };
    let declarations = read(alloc, TWO_FLAGS).ok()?;
    let values = read_values(alloc, "values", FOUR_VALUES.as_bytes()).ok()?;
    compile(
        alloc,
        &package,
        &container,
        slice::from_ref(&declarations),
        slice::from_ref(&values),
    )
    .ok()
}

fn read(alloc: Global, text: &str) -> Result<Declarations, DeclFault> {
    read_declarations(alloc, "flags", text.as_bytes())
}

fn fault(alloc: Global, text: &str) -> Option<DeclFault> {
    read(alloc, text).err()
}

fn own_flags(alloc: Global, text: &str) -> Result<Flags, CompileFault> {
    match read(alloc, text) {
        Ok(declarations) => compile_own(alloc, &declarations),
        Err(_) => Err(CompileFault::OutOfMemory),
    }
}

#[test]
fn values_set_flags_in_order(rt: HostRuntime) -> Result<(), Fail> {
    let Some(flags) = set_flags(rt.alloc()) else {
        panic!(rt; "no flags");
    };
    let mut last = "";
    for flag in flags.list() {
        let is_set = flag.name.as_str() == "z";
        assert!(rt; flag.enabled == is_set && flag.writable == is_set);
        assert_eq!(rt; flag.trace.as_slice().len(), if is_set { 3 } else { 1 });
        last = flag.name.as_str();
    }
    assert_eq!(rt; last, "z");
    assert_eq!(rt; flags.release(rt.alloc())?.len(), 2);
    Ok(())
}

#[test]
fn a_bool_has_its_spellings(rt: HostRuntime) {
    match own_flags(rt.alloc(), BOOLS) {
        Ok(flags) => {
            assert_eq!(rt; flags.list().len(), 11);
            for flag in flags.list() {
                let name = flag.name.as_str();
                assert_eq!(rt; flag.fixed, name.starts_with("y"), "{name}");
            }
        }
        Err(_) => panic!(rt; "no flags"),
    }
}

#[test]
fn faults_have_their_places(rt: HostRuntime) {
    for (text, place, what) in FAULTS {
        assert!(rt;
            fault(rt.alloc(), text) == Some(DeclFault::At(place, what)),
            "{text}"
        );
    }
    match own_flags(rt.alloc(), "package: \"c.a\"") {
        Ok(_) => panic!(rt; "no container is named"),
        Err(fault) => assert_eq!(rt; fault, CompileFault::In(0, 14, DeclWhat::MissingField)),
    }
    assert!(rt; read_container("system_ext") == "system" && read_container("vendor") == "vendor");
}
