//! The files of the tests.

pub(crate) const ONE_BUFFER: &str =
    r#"{"version":1,"end":8,"buffers":1,"groups":[{"name":"g","members":["b"]}],"federates":[{"name":"a","lookahead":5,"advance":{"tar":1},"rules":[{"on":"grant","if":[{"left":"$now","is":"eq","right":1}],"do":[{"send":"g","delay":5,"value":1}]},{"on":"grant","if":[{"left":"$now","is":"eq","right":2}],"do":[{"send":"g","delay":5,"value":2}]}]},{"name":"b","lookahead":5,"advance":{"tar":5}}]}"#;

pub(crate) const PAIR: &str =
    r#"{"version":1,"end":1,"buffers":1,"groups":[{"name":"g","members":["b"]}],"federates":[{"name":"a","lookahead":1,"advance":{"tar":1},"rules":[{"on":"start","do":[{"send":"g","delay":1,"value":7}]}]},{"name":"b","lookahead":1,"advance":{"tar":1}}]}"#;

pub(crate) const SIX: &str =
    r#"{"version":1,"end":1,"buffers":1,"groups":[{"name":"all","members":["f0","f1","f2","f3","f4","f5"]}],"federates":[{"name":"f0","lookahead":1,"advance":{"tar":1},"rules":[{"on":"start","do":[{"send":"all","delay":1,"value":"$now"}]}]},{"name":"f1","lookahead":1,"advance":{"tar":1},"rules":[{"on":"start","do":[{"send":"all","delay":1,"value":"$now"}]}]},{"name":"f2","lookahead":1,"advance":{"tar":1},"rules":[{"on":"start","do":[{"send":"all","delay":1,"value":"$now"}]}]},{"name":"f3","lookahead":1,"advance":{"tar":1},"rules":[{"on":"start","do":[{"send":"all","delay":1,"value":"$now"}]}]},{"name":"f4","lookahead":1,"advance":{"tar":1},"rules":[{"on":"start","do":[{"send":"all","delay":1,"value":"$now"}]}]},{"name":"f5","lookahead":1,"advance":{"tar":1},"rules":[{"on":"start","do":[{"send":"all","delay":1,"value":"$now"}]}]}]}"#;

pub(crate) const THREE: &str =
    r#"{"version":1,"end":4,"buffers":1,"groups":[{"name":"g","members":["c"]}],"federates":[{"name":"a","lookahead":1,"advance":{"tar":4},"rules":[{"on":"start","do":[{"send":"g","delay":3,"value":1}]}]},{"name":"b","lookahead":1,"advance":{"tar":4},"rules":[{"on":"start","do":[{"send":"g","delay":3,"value":2}]}]},{"name":"c","lookahead":1,"advance":{"ner":4}}]}"#;
