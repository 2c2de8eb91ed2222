//! The policy for a datanode that failed, from its settings.
use replace::settings::Settings;

#[test]
fn last_value_counts(rt: HostRuntime) {
    let pairs = [
        (
            "dfs.client.block.write.replace-datanode-on-failure.policy",
            "NEVER",
        ),
        (
            "dfs.client.block.write.replace-datanode-on-failure.best-effort",
            "True",
        ),
        (
            "dfs.client.block.write.replace-datanode-on-failure.policy",
            "always",
        ),
    ];
    let replace = Settings::from_pairs(&pairs).replace_datanode();
    assert!(rt; replace.is_best_effort());
    assert!(rt; replace.should_replace(3, 2, 0));
}

#[test]
fn switched_off(rt: HostRuntime) {
    let mut site = Settings::new();
    site.set(
        "dfs.client.block.write.replace-datanode-on-failure.enable",
        "yes",
    );
    assert!(rt; !site.replace_datanode().should_replace(3, 1, 0));
}

#[test]
fn default_policy(rt: HostRuntime) {
    let replace = Settings::new().replace_datanode();
    assert!(rt; replace.should_replace(3, 1, 0));
    assert!(rt; !replace.should_replace(3, 2, 0));
    assert!(rt; replace.should_replace(3, 2, 1));
    assert!(rt; !replace.should_replace(2, 1, 1));
}
