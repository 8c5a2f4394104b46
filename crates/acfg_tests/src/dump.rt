use acfg_base::{ContainerName, PackageName};
use acfg_decls::{Flags, compile, read_declarations, read_values};
use acfg_dump::{DumpFault, Filter, Template, dump};
use std::alloc::Global;
use std::process::Abort;
use std::test::Fail;

const DECLARATIONS: &str = "package: \"com.a\" container: \"c\" \
    flag { name: \"f\" namespace: \"n\" description: \"d\" bug: \"1\" } \
    flag { name: \"x\" namespace: \"m\" description: \"e f\" bug: \"b:2\" is_fixed_read_only: true is_exported: true \
    metadata { purpose: PURPOSE_BUGFIX } }";

const FIRST: &str =
    "flag_value { package: \"com.a\" name: \"f\" state: DISABLED permission: READ_WRITE }";

const SECOND: &str =
    "flag_value { package: \"com.a\" name: \"f\" state: ENABLED permission: READ_WRITE }";

// The flags `com.a.f`, which two files set, and `com.a.x`, which is fixed.
fn flags(rt: &impl Abort, alloc: Global) -> Flags {
    let package = PackageName::parse(alloc, "com.a")
        .expect(rt, "memory")
        .expect(rt, "a name");
    let container = ContainerName::parse(alloc, "c")
        .expect(rt, "memory")
        .expect(rt, "a name");
    let declared = read_declarations(alloc, "d.aconfig", DECLARATIONS.as_bytes()).expect(
        rt,
        "declarations",
    );
    let first = read_values(alloc, "v1", FIRST.as_bytes()).expect(rt, "values");
    let second = read_values(alloc, "v2", SECOND.as_bytes()).expect(rt, "values");
    let declarations = [declared];
    let values = [first, second];
    compile(alloc, &package, &container, &declarations, &values).expect(rt, "flags")
}

#[test]
fn flags_are_dumped_by_template_and_filter(rt: HostRuntime) -> Result<(), Fail> {
    let alloc = rt.alloc();
    let flags = flags(&rt, alloc);
    let table = [
        (
            "text",
            "all",
            "com.a.f [c]: READ_WRITE + ENABLED\ncom.a.x [c]: READ_ONLY + DISABLED\n",
        ),
        ("bool", "all", "com.a.f=true\ncom.a.x=false\n"),
        (
            "{name} {state} {trace}",
            "name:f",
            "f ENABLED d.aconfig=DISABLED/READ_WRITE,v1=DISABLED/READ_WRITE,v2=ENABLED/READ_WRITE\n",
        ),
        (
            "{package}|{fully_qualified_name}|{namespace}|{description}|{bug}|{state:bool}|{permission}|{container}",
            "name:x",
            "com.a|com.a.x|m|e f|b:2|false|READ_ONLY|c\n",
        ),
        (
            "{{{is_fixed_read_only}}} {is_exported}: {purpose}.",
            "all",
            "{false} false: .\n{true} true: PURPOSE_BUGFIX.\n",
        ),
        ("{name}", "package:com.a+namespace:n", "f\n"),
        ("{name}", "container:d,bug:b:2", "x\n"),
        ("{name}", "state:ENABLED,permission:READ_WRITE", "f\n"),
        ("{name}", "is_fixed_read_only:true+is_exported:true", "x\n"),
        ("{name}", "name:z,state:DISABLED+permission:READ_WRITE", ""),
    ];
    for (template, filter, said) in table {
        let template = Template::parse(alloc, template).expect(&rt, "a template");
        let filter = Filter::parse(alloc, filter).expect(&rt, "a filter");
        assert_eq!(rt;
            dump(alloc, &flags, &template, &filter)?.as_slice(),
            said.as_bytes()
        );
    }
    Ok(())
}

#[test]
fn templates_and_filters_are_refused_at_their_first_bad_place(rt: HostRuntime) {
    let alloc = rt.alloc();
    let templates = [
        ("{nme}", 0),
        ("{{name}", 6),
        ("a{name} {", 8),
        ("{state:boolean}", 0),
        ("}}}", 2),
    ];
    for (text, place) in templates {
        let fault = DumpFault::BadPlaceholder(place);
        assert_eq!(rt; Template::parse(alloc, text).err(), Some(fault), "{text:?}");
    }
    let filters = [
        ("", 0),
        ("all,name:f", 0),
        ("state:ON", 0),
        ("name:f,package:a+name:", 17),
        ("name:f,", 7),
        ("name:f++bug:1", 7),
    ];
    for (text, place) in filters {
        let fault = DumpFault::BadFilter(place);
        assert_eq!(rt; Filter::parse(alloc, text).err(), Some(fault), "{text:?}");
    }
}
