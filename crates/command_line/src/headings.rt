//! The headings under which the help of a command shows its options.
ghost use Rattle.std.specs.Prelude.{◌≡◌, None, codes, false};
ghost use Rattle.std.specs.Str.{bytes_eq};

/// The heading under which the help of a command shows an option. Those without one stand in front, and `router` alone has so many that others
/// have one.
pub(crate) fn heading_of(command: &str, option: &str) -> Option<&'static str>
    ensures { bytes_eq command.now (codes "router") ≡ false → result ≡ None }
{
    if command == "router" {
        router_heading(option)
    } else {
        None
    }
}

/// The heading of an option of `router`. What it reads and whether it starts has none.
fn router_heading(option: &str) -> Option<&'static str> {
    match option {
        "domain" | "allow-other-domain" | "size" | "node" | "prefix" => Some("Domain"),
        "link" | "hold" | "retry" | "queue" => Some("Links"),
        "filter" | "import" | "export" => Some("Filters"),
        "control" | "stay" => Some("Operators"),
        "limit" | "save" | "segments" => Some("History"),
        "routes" | "settle" | "log" => Some("Routes and log"),
        _ => None,
    }
}
