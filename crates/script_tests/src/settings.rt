//! Tests of the table of keys, and of settings.
use end_settings::{EndKey, First, KEYS, Role, Setting, Settings, Values};

/// The kinds of end that have each key: a full-duplex end, a master, a station, a station whose master routes messages.
const ROLES: [(&str, [bool; 4]); 13] = [
    ("ack_ticks", [true, true, false, false]),
    ("embed", [true, false, false, false]),
    ("max_enqs", [true, false, false, false]),
    ("max_naks", [true, false, false, false]),
    ("max_resends", [false, true, false, false]),
    ("max_sends", [false, false, true, true]),
    ("node", [true, true, false, false]),
    ("per_source", [true, true, false, false]),
    ("poll_ticks", [false, true, false, false]),
    ("reply_ticks", [true, true, false, false]),
    ("room", [true, true, true, true]),
    ("tns", [true, true, false, true]),
    ("window", [true, true, false, true]),
];

#[test]
fn each_kind_of_end_has_its_keys(rt: HostRuntime) {
    for (name, has) in ROLES {
        let Some(key) = EndKey::named(name.as_bytes()) else {
            panic!(&rt; "no key");
        };
        assert!(rt; key.name() == name, "{name}");
        let found = [
            key.roles().has(Role::Duplex),
            key.roles().has(Role::Master),
            key.roles().has(Role::Station),
            key.roles().has(Role::RoutedStation),
        ];
        assert!(rt; found == has, "{name}");
    }
    assert!(rt; KEYS.len() == ROLES.len() && EndKey::named(b"ack-ticks") == None);
}

/// The minimum, maximum and default value of each key, for an end whose address is 7.
const VALUES: [(EndKey, u32, u32, u32); 13] = [
    (EndKey::AckTicks, 1, 1_000_000, 10),
    (EndKey::Embed, 0, 1, 0),
    (EndKey::MaxEnqs, 0, 255, 3),
    (EndKey::MaxNaks, 0, 255, 3),
    (EndKey::MaxResends, 0, 255, 3),
    (EndKey::MaxSends, 1, 255, 3),
    (EndKey::Node, 0, 255, 7),
    (EndKey::PerSource, 1, 16, 16),
    (EndKey::PollTicks, 1, 1_000_000, 10),
    (EndKey::ReplyTicks, 33, 1_000_000, 100),
    (EndKey::Room, 2, 64, 2),
    (EndKey::Tns, 0, 65_535, 1),
    (EndKey::Window, 1, 16, 1),
];

#[test]
fn each_key_keeps_its_values_alone(rt: HostRuntime) {
    for (key, least, most, first) in VALUES {
        let mut settings = Settings::new();
        assert!(rt;
            settings.value(key) == None && settings.chosen(key, 7) == first,
            "{key:?}"
        );
        for value in [least, most] {
            settings.set(Setting {
                key,
                value: Some(value),
            });
            assert!(rt;
                settings.value(key) == Some(value) && settings.chosen(key, 7) == value,
                "{key:?}"
            );
        }
        for value in [least.checked_sub(1), most.checked_add(1), None] {
            settings.set(Setting { key, value });
            assert!(rt;
                settings.value(key) == None && settings.chosen(key, 7) == first,
                "{key:?}"
            );
        }
    }
    assert!(rt; EndKey::Embed.values() == Values::Switch && EndKey::Node.first() == First::Address);
}
