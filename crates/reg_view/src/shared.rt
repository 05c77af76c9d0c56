// The published state of the topic shows the registry over its kept set.
use crate::shows::ShowsRegistry;
use reg_fold::Registry;
use reg_shared::{Shared, kept_gives_registry, published_lists_fold};
use reg_topic::Item;

impl ShowsRegistry<Item> for Shared {
    ghost use Rattle.std.specs.Prelude.{◌≤◌};
    ghost use Rattle.reg_set.specs.LastRecords.{last_records};
    ghost use Rattle.reg_topic.specs.Topic.{registry_of};
    ghost use Rattle.reg_shared.specs.Held.{topic_at};

    ghost shows = { λ held. last_records held.kept.records };

    ghost begins = { λ first. first.kept.floor ≤ first.next };

    ghost comes_to = { λ first list. (topic_at first list).kept.records };

    ghost answers_for = { λ first list. registry_of (topic_at first list) };

    fn registry(&self) -> &Registry {
        self.registry()
    }

    fn folds_show() {
        published_lists_fold();
        kept_gives_registry();
    }
}
